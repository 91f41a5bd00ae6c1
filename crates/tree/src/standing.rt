// Which entries the root reaches.
ghost use Rattle.std.specs.Prelude.{Decides};
ghost use Rattle.tree.specs.Sound.{FindsDirectory, Roots};
ghost use Rattle.tree.specs.Table.{nodes_of};
ghost use Rattle.tree.specs.Tree.{Among, Reached};

use crate::node::Node;
use crate::table::Tree;
use page::EntryKind;

/// The most names of a path.
pub const NAME_LIMIT: u8 = 8;

impl Tree {
    // The directory with this file number.
    fn directory(&self, file: u32) -> Option<Node>
        ensures { FindsDirectory (Among (nodes_of self.now)) file result }
    {
        let entry = self.get(file)?;
        match entry.kind {
            EntryKind::Directory => Some(Node { file, entry }),
            EntryKind::File => None,
        }
    }

    // Whether the entry stands at a path of at most so many names.
    fn stands(&self, node: &Node, names: u8) -> bool
        ensures { Among (nodes_of self.now) node.now.file node.now.entry → Decides result (Reached (Among (nodes_of self.now)) names node.now.file) }
    {
        if names == 0 {
            return false;
        }
        if node.entry.directory == 0 {
            return true;
        }
        // No `is_some_and`: a closure that leads back to its function needs clauses of its own.
        match self.directory(node.entry.directory) {
            Some(directory) => self.stands(&directory, names - 1),
            None => false,
        }
    }

    // Whether every entry stands at a path.
    pub(crate) fn is_rooted(&self) -> bool
        ensures { Roots (Among (nodes_of self.now)) result }
    {
        self.nodes()
            .iter()
            .all(|node| self.stands(node, NAME_LIMIT))
    }
}
