//! The pages of a flash chip: what one page says, and how it is written.
//!
//! A page is erased, data or spoilt by its zero count (`code`). A data page holds a header and a
//! note, an entry, a chunk or the mark of a gone file (`fields`). `decode` reads a page and refuses
//! what does not fit; `encode` writes exactly the page that `decode` reads back. Nothing here
//! allocates, and no call asks anything of its caller.

#![tactic(auto)]

mod bits;
mod code;
mod decoding;
mod encoding;
mod fields;
mod fitting;
mod kinds;
mod layout;
mod names;
mod tearing;
mod worked;

pub use code::{PageState, page_state, rising_never_makes_data, zero_count};
pub use decoding::{decode, page_number};
pub use encoding::encode;
pub use fields::{Chunk, Content, Entry, EntryKind, Header, Page, PageFault};
pub use layout::{CHUNK_BYTES, CHUNK_LIMIT, GROUP_LIMIT, LENGTH_LIMIT, NAME_BYTES};
pub use names::{Name, name_allowed, same_name};
pub use tearing::{torn_erase_only_takes_pages_away, torn_program_adds_no_other_page};
pub use worked::worked_pages;

#[cfg(test)]
mod tests;
