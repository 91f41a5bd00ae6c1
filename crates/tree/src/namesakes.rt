// Which entries share a name.
ghost use Rattle.std.specs.Prelude.{Decides};
ghost use Rattle.tree.specs.Sound.{HasLike, Repeats};
ghost use Rattle.tree.specs.Table.{nodes_of};
ghost use Rattle.tree.specs.Tree.{Alike, Among, Namesakes};

use crate::node::Node;
use crate::table::Tree;
use page::Entry;

// Whether the two have one name in one directory.
fn alike(a: &Entry, b: &Entry) -> bool
    ensures { Decides result (Alike a.now b.now) }
{
    a.directory == b.directory && a.name == b.name
}

// Whether one of the nodes has the entry's name and directory.
fn has_like(nodes: &[Node], entry: &Entry) -> bool
    ensures { Decides result (HasLike nodes.now entry.now) }
{
    nodes.iter().any(|node| alike(entry, &node.entry))
}

// Whether one of the nodes has the name and the directory of a later one.
fn repeats(nodes: &[Node]) -> bool
    ensures { Decides result (Repeats nodes.now) }
{
    let [first, rest @ ..] = nodes else {
        return false;
    };
    has_like(rest, &first.entry) || repeats(rest)
}

impl Tree {
    // Whether two entries of one directory have one name.
    pub(crate) fn has_namesakes(&self) -> bool
        ensures { Decides result (Namesakes (Among (nodes_of self.now))) }
    {
        repeats(self.nodes())
    }
}
