//! The working page that a caller lends to a call: 256 bytes into which pages are read. It comes back
//! with every bit at 1 on every way out, so that nothing of one file stays behind for the next call.

#![tactic(auto)]

mod guard;

pub use guard::{Guard, PageGuard};
