//! What a chip shows: replay of its data pages as a relation, without an order of steps, what it does
//! not depend on, and what of it stays when power is lost.

#![tactic(auto)]

mod access;
mod collect;
mod crashes;
mod entries;
mod fault;
mod gather;
mod group;
mod laws;
mod marks;
mod overrun;
mod pages;
mod powered;
mod scanning;
mod seen;
mod shows;
mod slot;
mod tables;
mod tops;
mod walks;
mod wants;

pub use crashes::{copy_keeps, finished_group_puts, scratch_erase_keeps, unfinished_group_keeps};
pub use fault::ReplayFault;
pub use group::Group;
pub use laws::{cut_short_group_does_not_count, free_block_tells_nothing, only_data_tells};
pub use scanning::scan;
pub use slot::Slot;
pub use tables::{BLOCK_LIMIT, PAGE_LIMIT, Scan};
pub use walks::{newest_tells, walk_shows};
