//! What the store's map is made of: a key is a file number and a part, and an object is what a page
//! says under it; a slot is a key with the page that tells it. The chip's limits stand here too.

#![tactic(auto)]

mod key;
mod limits;
mod slot;
mod value;

pub use key::Key;
pub use limits::{BLOCK_LIMIT, LEAST_BLOCKS, SPARE_BLOCKS};
pub use slot::Slot;
pub use value::Object;
