// Chunks that start at or past the end of their file.
ghost use Rattle.replay.specs.Overrun.{Overruns, OverrunIn};
ghost use Rattle.std.specs.Prelude.{Decides};
ghost use Rattle.tree.specs.Table.{nodes_of};
ghost use Rattle.tree.specs.Tree.{Among};

use crate::slot::Slot;
use object::Key;
use page::CHUNK_BYTES;
use tree::Tree;

// Whether the key is that of such a chunk.
fn overruns(key: &Key, tree: &Tree) -> bool
    ensures { Decides result (Overruns (Among (nodes_of tree.now)) key.now) }
{
    let Some(entry) = tree.get(key.file) else {
        return false;
    };
    key.part > 0 && entry.length as usize <= (key.part - 1) as usize * CHUNK_BYTES
}

// Whether a slot has such a key.
pub(crate) fn has_overrun(slots: &[Slot], tree: &Tree) -> bool
    ensures { Decides result (OverrunIn (Among (nodes_of tree.now)) slots.now) }
{
    slots.iter().any(|slot| overruns(&slot.key, tree))
}
