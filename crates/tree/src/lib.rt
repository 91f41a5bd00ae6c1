//! The table of a file system's entries: which files and directories there are, each under its file
//! number, and whether every one of them stands at a path.

#![tactic(auto)]

mod namesakes;
mod node;
mod sound;
mod standing;
mod table;
mod tree;

pub use node::Node;
pub use sound::TreeFault;
pub use standing::NAME_LIMIT;
pub use table::{ENTRY_LIMIT, Tree};

#[cfg(test)]
mod tests;
