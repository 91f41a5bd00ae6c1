// Reading every page of a flash once, and remembering the data pages.
ghost use Rattle.std.specs.Prelude.{◌≡◌, ◌<◌, ◌≤◌, true, [], length, IfOk};
ghost use Rattle.lookup.specs.Rows.{rows};
ghost use Rattle.page.specs.Fits.{fits as page_fits};
ghost use Rattle.replay.specs.Remembers.{GathersAll, Powered, TakesIn};

use crate::fault::ReplayFault;
use crate::seen::{Seen, says_of};
use crate::tables::PAGE_LIMIT;
use flash::{PAGE_BYTES, ReadFlash, page_count};
use lookup::Table;
use page::{Page, PageFault, decode};

// Remembers what was read at `place`.
fn take_in(
    seen: &mut Table<Seen, PAGE_LIMIT>,
    place: usize,
    read: Result<Page, PageFault>,
) -> Result<(), ReplayFault>
    requires room { length (rows seen.old) < 256 }
    requires fit { IfOk read (λ page. page_fits page ≡ true) }
    ensures { TakesIn (rows seen.old) place read result (rows seen.new) }
{
    match read {
        Ok(page) => {
            seen.insert(Seen {
                place,
                header: page.header,
                says: says_of(&page),
            })?;
            Ok(())
        }
        Err(PageFault::NotData) => Ok(()),
        Err(PageFault::OutOfRange) => Err(ReplayFault::Damaged),
    }
}

// Reads every page once and remembers the data pages, by rising number, in a table that holds none yet. It is lent, since
// one that is handed out is copied.
pub(crate) fn gather<F: ReadFlash>(
    flash: &F,
    work: &mut [u8; PAGE_BYTES],
    seen: &mut Table<Seen, PAGE_LIMIT>,
) -> Result<(), ReplayFault>
    requires few { length (F.ReadFlash.chip flash.now).pages ≤ 256 }
    requires none { rows seen.old ≡ [] }
    ensures answer { GathersAll (F.ReadFlash.chip flash.now) result (rows seen.new) }
    ensures power { Powered (F.ReadFlash.chip flash.now) result }
{
    for place in 0..page_count(flash) {
        flash.read(place, work)?;
        take_in(seen, place, decode(work))?;
    }
    Ok(())
}
