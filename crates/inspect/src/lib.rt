//! What a flash holds, page by page: how many pages are erased, data or spoilt, and which numbers
//! the data pages have. It reads any flash, asks nothing of it, and trusts no page's fields.

#![tactic(auto)]

mod census;

pub use census::{Census, Numbers, inspect_pages};
