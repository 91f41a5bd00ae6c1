//! Tables without a heap: one search, written once for any record with a key, one way to put a record
//! between others, and one table in rising order. Keys of objects, slots and tree entries are all kept by it.

#![tactic(auto)]

mod filling;
mod search;
mod sorted;
mod table;

pub use search::{Keyed, find};
pub use sorted::{Ranked, Unplaced, insert_at, insert_sorted, leading, retain};
pub use table::Table;
