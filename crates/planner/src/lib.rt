//! The journal's tables and its decisions, with no flash in them.

#![tactic(auto)]

mod batch;
mod carrying;
mod commit;
mod deciding;
mod faults;
mod format;
mod free;
mod head;
mod laws;
mod lowest;
mod making;
mod mount;
mod numbers;
mod reading;
mod says;
mod scanned;
mod sizes;
mod slot;
mod slots;
mod steps;
mod tables;
mod telling;

pub use batch::BATCH_PAGES;
pub use faults::{BatchFault, RoomFault};
pub use free::Spares;
pub use head::Head;
pub use laws::{batch_keeps, mount_keeps, mount_past};
pub use numbers::SPENT_ABOVE;
pub use says::Says;
pub use scanned::Scanned;
pub use slot::{Place, Slot};
pub use slots::Slots;
pub use steps::Step;
pub use tables::Tables;
