// The entries of a chip, read again from the pages that tell them.
ghost use Rattle.std.specs.Prelude.{◌≡◌, ℕ, ◌<◌, ◌≤◌, true, length, slice_index_or};
ghost use Rattle.replay.specs.Entries.{EntryPlace, entry_read, ReadsEntry, ReadsTree, RisingFiles};
ghost use Rattle.object.specs.declared.slot.Slot.{Slot as Place};

use crate::fault::ReplayFault;
use crate::powered::PoweredFlash;
use crate::slot::Slot;
use flash::{PAGE_BYTES, ReadFlash};
use page::{Content, Entry, Page, PageFault, decode};
use tree::Tree;

// The entry that was read.
fn entry_in(read: Result<Page, PageFault>) -> Option<Entry>
    ensures { result ≡ entry_read read }
{
    match read.ok()?.content {
        Content::Entry(entry) => Some(entry),
        _ => None,
    }
}

// The entry at a place that holds one.
fn read_entry<F: ReadFlash>(
    powered: &PoweredFlash<F>,
    work: &mut [u8; PAGE_BYTES],
    place: usize,
) -> Result<Entry, ReplayFault>
    requires { EntryPlace (F.ReadFlash.chip powered.now.flash.now) place }
    ensures { ReadsEntry (F.ReadFlash.chip powered.now.flash.now) place result }
{
    powered.flash.read(place, work)?;
    match entry_in(decode(work)) {
        Some(entry) => Ok(entry),
        None => unreachable(),
    }
}

// The entries at these slots' places, each under its file number.
pub(crate) fn read_tree<F: ReadFlash>(
    powered: &PoweredFlash<F>,
    work: &mut [u8; PAGE_BYTES],
    slots: &[Slot],
) -> Result<Tree, ReplayFault>
    requires entries { (i : ℕ) (d : Place ℕ) → i < length slots.now → EntryPlace (F.ReadFlash.chip powered.now.flash.now) (slice_index_or slots.now i d).place }
    requires few { length slots.now ≤ 60 }
    requires rising { RisingFiles slots.now }
    ensures { ReadsTree (F.ReadFlash.chip powered.now.flash.now) slots.now result }
{
    let mut tree = Tree::new();
    for slot in slots {
        let entry = read_entry(powered, work, slot.place)?;
        // Never refused: the files rise, and they are 60 at most.
        let _ = tree.add(slot.key.file, entry);
    }
    Ok(tree)
}
