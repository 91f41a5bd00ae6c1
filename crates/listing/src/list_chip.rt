// The listing of a chip.
ghost use Rattle.std.specs.Prelude.{◌≡◌, Err};
ghost use Rattle.listing.specs.Chip.{ListsChip};
ghost use Rattle.replay.specs.declared.fault.ReplayFault.TheVariants.{WorkPage};
ghost use Rattle.work_page.specs.Lent.{Lent, Returned, ones};

use crate::lines::{LISTING_BYTES, write_listing};
use flash::{PAGE_BYTES, ReadFlash};
use replay::{ReplayFault, scan};
use work_page::PageGuard;

// The listing, once the working page has its size; nothing that was read stays in it.
fn list_page<F: ReadFlash>(
    flash: &F,
    page: &mut [u8; PAGE_BYTES],
    buffer: &mut [u8],
) -> Result<usize, ReplayFault>
    ensures answer { ListsChip (F.ReadFlash.chip flash.now) buffer.old result buffer.new }
    ensures page { page.new ≡ ones 256 }
{
    let guard = PageGuard(page);
    if buffer.len() < LISTING_BYTES {
        return Err(ReplayFault::Buffer);
    }
    let found = scan(flash, guard.0)?;
    Ok(write_listing(&found.tree, buffer))
}

/// Writes a line for each file and directory that the chip shows, by rising file number, to the front
/// of the buffer, and answers how many bytes they are. A refusal leaves the buffer as it was. Refusals are
/// tried in the order of their numbers: 1, 5, 6, 10, 11, 12.
pub fn list<F: ReadFlash>(
    flash: &F,
    work: &mut [u8],
    buffer: &mut [u8],
) -> Result<usize, ReplayFault>
    ensures answer { Lent work.old (ListsChip (F.ReadFlash.chip flash.now) buffer.old result buffer.new) ((result ≡ Err WorkPage) × (buffer.new ≡ buffer.old)) }
    ensures work { Returned work.old work.new }
{
    let Some(page) = work.as_mut_array() else {
        return Err(ReplayFault::WorkPage);
    };
    list_page(flash, page, buffer)
}
