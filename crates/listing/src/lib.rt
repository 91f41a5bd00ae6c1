//! The text of a listing: a line for each file and directory, by rising file number, as
//!
//!     d 0 /cal
//!     f 3 /cal/arc
//!
//! with `d` or `f`, the length in bytes and the path. It is written into memory that the caller lends.

#![tactic(auto)]

mod answer;
mod laws;
mod lines;
mod list_chip;
mod paths;
mod pen;
mod text;

pub use answer::put_answer;
pub use laws::{one_listing, worked_listing};
pub use lines::LISTING_BYTES;
pub use list_chip::list;
