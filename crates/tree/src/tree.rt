// Filling and reading the table.
ghost use Rattle.std.specs.Prelude.{◌≡◌, []};
ghost use Rattle.tree.specs.Table.{Adds, nodes_of};
ghost use Rattle.tree.specs.Tree.{Among, Gets};

use crate::node::Node;
use crate::table::Tree;
use lookup::{Table, Unplaced, find};
use page::{Entry, EntryKind, Name};

// What fills the table past its entries.
fn filler() -> Node {
    let Some(name) = Name::new(b"-") else {
        unreachable()
    };
    let entry = Entry {
        directory: 0,
        kind: EntryKind::File,
        length: 0,
        name,
    };
    Node { file: 0, entry }
}

impl Tree {
    /// No entries.
    pub fn new() -> Tree
        ensures { nodes_of result ≡ [] }
    {
        Tree {
            nodes: Table::new(filler()),
        }
    }

    /// Puts the entry under its file number; nothing changes where one has that number, or there is no room.
    pub fn add(&mut self, file: u32, entry: Entry) -> Result<(), Unplaced>
        ensures { Adds (nodes_of self.old) (record { file = file; entry = entry }) result (nodes_of self.new) }
    {
        self.nodes.insert(Node { file, entry })
    }

    /// The entries, by rising file number.
    pub fn nodes(&self) -> &[Node]
        ensures { result.now ≡ nodes_of self.now }
    {
        self.nodes.as_slice()
    }

    /// The entry of this file, where there is one.
    pub fn get(&self, file: u32) -> Option<Entry>
        ensures { Gets (Among (nodes_of self.now)) file result }
    {
        let nodes = self.nodes();
        let at = find(nodes, &file)?;
        Some(nodes[at].entry)
    }
}
