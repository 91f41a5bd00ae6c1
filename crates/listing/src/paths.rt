// Paths, from the root down. That the tree has the entry, at some place, is asked of each function. Tried as a ghost field
// of a struct with the two, it has to be a proposition, and truncated to one the place can't be taken out again.
ghost use Rattle.std.specs.Prelude.{◌+◌, ◌*◌, ◌≤◌, length};
ghost use Rattle.listing.specs.Writes.{Above, AddsPath};
ghost use Rattle.tree.specs.Table.{nodes_of};
ghost use Rattle.tree.specs.Tree.{Among, Reached};

use crate::pen::Pen;
use tree::{Node, Tree};

// The directory that the entry stands in, where that is not the root.
fn directory_of(tree: &Tree, node: &Node, names: u8) -> Option<Node>
    requires there { Among (nodes_of tree.now) node.now.file node.now.entry }
    requires stands { Reached (Among (nodes_of tree.now)) names node.now.file }
    ensures { Above (Among (nodes_of tree.now)) node.now result }
{
    let file = node.entry.directory;
    if file == 0 {
        return None;
    }
    let entry = tree.get(file)?;
    Some(Node { file, entry })
}

impl Pen<'_> {
    // Writes the path of an entry that stands within so many names.
    pub(crate) fn put_path(&mut self, tree: &Tree, node: &Node, names: u8)
        requires room { self.old.end + 25 * names ≤ length self.old.out.now }
        requires there { Among (nodes_of tree.now) node.now.file node.now.entry }
        requires stands { Reached (Among (nodes_of tree.now)) names node.now.file }
        ensures { AddsPath (Among (nodes_of tree.now)) names node.now.file self.old self.new }
    {
        if let Some(directory) = directory_of(tree, node, names) {
            self.put_path(tree, &directory, names - 1);
        }
        self.put_name(&node.entry.name);
    }
}
