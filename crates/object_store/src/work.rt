// The working page that calls are lent.
ghost use Rattle.std.specs.Prelude.{◌≡◌, length, Ok};
ghost use Rattle.object_store.specs.Says.{paged};

use crate::fault::ObjectFault;
use flash::PAGE_BYTES;

// That it has the bytes of a page.
pub(crate) fn check_page(work: &[u8]) -> Result<(), ObjectFault>
    ensures { result ≡ paged (length work.now) (Ok tt) }
{
    if work.len() == PAGE_BYTES {
        Ok(())
    } else {
        Err(ObjectFault::WorkPage)
    }
}
