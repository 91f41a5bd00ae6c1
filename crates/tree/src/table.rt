// The table.
use crate::node::Node;
use lookup::Table;

/// The most entries that a chip shows.
pub const ENTRY_LIMIT: usize = 60;

/// The entries, by rising file number.
#[derive(Drop)]
pub struct Tree {
    pub(crate) nodes: Table<Node, ENTRY_LIMIT>,
}
