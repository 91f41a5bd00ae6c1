// Reading what a chip shows.
ghost use Rattle.std.specs.Prelude.{◌≡◌, ℕ, ◌<◌, ◌≤◌, length, Decides, Err};
ghost use Rattle.replay.specs.Damage.{FewBlocks, key_limit, Scans, ScansSeen, Trees};
ghost use Rattle.replay.specs.Marks.{Marks};
ghost use Rattle.replay.specs.Remembers.{Remembers};
ghost use Rattle.replay.specs.declared.fault.ReplayFault.TheVariants.{WorkPage};
ghost use Rattle.work_page.specs.Lent.{Lent, Returned, ones};

use crate::entries::read_tree;
use crate::fault::ReplayFault;
use crate::gather::gather;
use crate::marks::mark;
use crate::overrun::has_overrun;
use crate::pages::Pages;
use crate::powered::PoweredFlash;
use crate::seen::Seen;
use crate::slot::Slot;
use crate::tables::{BLOCK_LIMIT, PAGE_LIMIT, Scan};
use crate::tops::block_tops;
use crate::wants::EntryKeys;
use flash::{PAGE_BYTES, ReadFlash};
use lookup::Table;
use object::{LEAST_BLOCKS, SPARE_BLOCKS};
use tree::{ENTRY_LIMIT, Tree};
use work_page::PageGuard;

// The entries that the remembered pages show, where they are a tree.
fn shown_tree<F: ReadFlash>(
    powered: &PoweredFlash<F>,
    work: &mut [u8; PAGE_BYTES],
    pages: &Pages,
) -> Result<Tree, ReplayFault>
    requires remembers { Remembers (F.ReadFlash.chip powered.now.flash.now) (length (F.ReadFlash.chip powered.now.flash.now).pages) pages.now.seen.now }
    requires marks { Marks pages.now.seen.now pages.now.whole.now }
    ensures { Trees (F.ReadFlash.chip powered.now.flash.now) pages.now.floor result }
{
    let mut found = Table::new(Slot::default());
    pages.collect(&EntryKeys, &mut found);
    let slots = found.as_slice();
    if slots.len() > ENTRY_LIMIT {
        return Err(ReplayFault::Damaged);
    }
    let tree = read_tree(powered, work, slots)?;
    tree.check()?;
    Ok(tree)
}

// The most keys that the chip may tell. Planner's `key_limit` counts in bytes, for any number of pages in a block; this
// asks a flash.
fn key_limit<F: ReadFlash>(flash: &F) -> usize
    ensures { result ≡ key_limit (F.ReadFlash.chip flash.now) }
{
    F::block_pages() * flash.blocks().saturating_sub(SPARE_BLOCKS)
}

// The tables of a chip whose data pages are remembered.
fn scan_seen<F: ReadFlash>(
    powered: &PoweredFlash<F>,
    work: &mut [u8; PAGE_BYTES],
    seen: &[Seen],
) -> Result<Scan, ReplayFault>
    requires few { FewBlocks (F.ReadFlash.chip powered.now.flash.now) }
    requires sizes { (0 < length seen.now) × (length seen.now ≤ 256) }
    requires remembers { Remembers (F.ReadFlash.chip powered.now.flash.now) (length (F.ReadFlash.chip powered.now.flash.now).pages) seen.now }
    ensures { ScansSeen (F.ReadFlash.chip powered.now.flash.now) result }
{
    let whole = mark(seen);
    let top = seen[seen.len() - 1].header;
    let pages = Pages {
        seen,
        whole: &whole,
        floor: top.floor,
    };
    let tree = shown_tree(powered, work, &pages)?;
    let mut slots = Table::new(Slot::default());
    pages.collect(&tree, &mut slots);
    if slots.as_slice().len() > key_limit(powered.flash) {
        return Err(ReplayFault::Damaged);
    }
    if has_overrun(slots.as_slice(), &tree) {
        return Err(ReplayFault::Damaged);
    }
    Ok(Scan {
        slots,
        tops: block_tops(seen, F::block_pages()),
        floor: top.floor,
        highest: top.number,
        tree,
    })
}

// Whether the chip has no more blocks, and no fewer, than one that is shown.
fn has_few_blocks<F: ReadFlash>(flash: &F) -> bool
    ensures { Decides result (FewBlocks (F.ReadFlash.chip flash.now)) }
{
    (LEAST_BLOCKS..=BLOCK_LIMIT).contains(&flash.blocks())
}

// What the chip tells; nothing that was read stays in the working page. In one function, since a `Scan` that is handed on is
// copied.
fn read_chip<F: ReadFlash>(flash: &F, page: &mut [u8; PAGE_BYTES]) -> Result<Scan, ReplayFault>
    ensures answer { Scans (F.ReadFlash.chip flash.now) result }
    ensures page { page.new ≡ ones 256 }
{
    let guard = PageGuard(page);
    if !has_few_blocks(flash) {
        return Err(ReplayFault::Blocks);
    }
    let mut found = Table::new(Seen::default());
    gather(flash, guard.0, &mut found)?;
    let seen = found.as_slice();
    if seen.is_empty() {
        return Err(ReplayFault::Empty);
    }
    scan_seen(&PoweredFlash { flash }, guard.0, seen)
}

/// What the chip tells: the tables that a journal needs, or why there are none. Each page is read once,
/// and each telling entry once more. Refusals are tried in the order of their numbers: 1, 6, 10, 11, 12.
pub fn scan<F: ReadFlash>(flash: &F, work: &mut [u8]) -> Result<Scan, ReplayFault>
    ensures answer { Lent work.old (Scans (F.ReadFlash.chip flash.now) result) (result ≡ Err WorkPage) }
    ensures work { Returned work.old work.new }
{
    let Some(page) = work.as_mut_array() else {
        return Err(ReplayFault::WorkPage);
    };
    read_chip(flash, page)
}
