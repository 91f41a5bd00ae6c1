// Lines, one to an entry.
ghost use Rattle.std.specs.Prelude.{◌≡◌, ◌+◌, ◌≤◌, length};
ghost use Rattle.listing.specs.Listing.{letter as letter_of};
ghost use Rattle.listing.specs.Writes.{AddsLine, Short, WritesListing};
ghost use Rattle.tree.specs.Table.{nodes_of};
ghost use Rattle.tree.specs.Tree.{Among, Reached, Rooted};

use crate::pen::Pen;
use page::EntryKind;
use tree::{NAME_LIMIT, Node, Tree};

/// The memory that a listing of 60 lines of at most 208 bytes takes.
pub const LISTING_BYTES: usize = 12480;

fn letter(kind: EntryKind) -> u8
    ensures { result ≡ letter_of kind }
{
    match kind {
        EntryKind::File => b'f',
        EntryKind::Directory => b'd',
    }
}

impl Pen<'_> {
    // Writes the line of an entry.
    fn put_line(&mut self, tree: &Tree, node: &Node)
        requires room { self.old.end + 208 ≤ length self.old.out.now }
        requires there { Among (nodes_of tree.now) node.now.file node.now.entry }
        requires stands { Reached (Among (nodes_of tree.now)) 8 node.now.file }
        requires short { node.now.entry.length ≤ 7168 }
        ensures { AddsLine (Among (nodes_of tree.now)) node.now.file self.old self.new }
    {
        self.put(&[letter(node.entry.kind), b' ']);
        self.put_decimal(node.entry.length);
        self.put(b" ");
        self.put_path(tree, node, NAME_LIMIT);
        self.put(b"\n");
    }
}

// Writes the listing to the front of the buffer, and answers how long it is.
pub(crate) fn write_listing(tree: &Tree, buffer: &mut [u8]) -> usize
    requires room { 12480 ≤ length buffer.old }
    requires rooted { Rooted (Among (nodes_of tree.now)) }
    requires short { Short (Among (nodes_of tree.now)) }
    ensures { WritesListing tree.now buffer.old result buffer.new }
{
    let mut pen = Pen {
        out: buffer,
        end: 0,
    };
    for node in tree.nodes() {
        pen.put_line(tree, node);
    }
    pen.end
}
