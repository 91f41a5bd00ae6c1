// From the pages of an example to an image.
ghost use Rattle.std.specs.Prelude.{◌≡◌};
ghost use Rattle.flash.specs.ImageCalls.{view};
ghost use Rattle.images.specs.Writes.{Programs, Puts, Recovers, Writes, fuse_of};

use crate::bytes::{ImageFault, page_bytes};
use crate::placed::{Manner, Placed};
use flash::{Flash, FlashFault, Fuse, ImageFlash, PAGE_BYTES};

impl Manner {
    fn fuse(&self) -> Fuse
        ensures { result ≡ fuse_of self.now }
    {
        match self {
            Manner::Torn { leading } => Fuse::Set {
                before: 0,
                leading: *leading,
            },
            Manner::Whole | Manner::Altered { .. } => Fuse::Intact,
        }
    }
}

// A page that is torn is meant to be: power is on again. Any other refusal stands.
fn recover(flash: &mut ImageFlash, fault: FlashFault) -> Result<(), ImageFault>
    ensures { Recovers fault (view flash.old) result (view flash.new) }
{
    match fault {
        FlashFault::Program { .. } => {
            flash.power_up();
            Ok(())
        }
        _ => Err(ImageFault::Place),
    }
}

fn program(flash: &mut ImageFlash, place: usize, bytes: &[u8; PAGE_BYTES]) -> Result<(), ImageFault>
    ensures { Programs (view flash.old) place bytes.now result (view flash.new) }
{
    // A `match`: `or_else` would say nothing of the image where nothing is refused.
    match flash.program(place, bytes) {
        Ok(()) => Ok(()),
        Err(fault) => recover(flash, fault),
    }
}

/// Programs the page, torn where it is meant to be.
pub fn put(flash: &mut ImageFlash, placed: &Placed) -> Result<(), ImageFault>
    ensures { Puts (view flash.old) placed.now result (view flash.new) }
{
    let bytes = page_bytes(placed)?;
    flash.set_fuse(placed.manner.fuse());
    program(flash, placed.place, &bytes)
}

/// Programs the pages in their order, up to the first that is refused.
pub fn write(flash: &mut ImageFlash, pages: &[Placed]) -> Result<(), ImageFault>
    ensures { Writes (view flash.old) pages.now result (view flash.new) }
{
    for placed in pages {
        put(flash, placed)?;
    }
    Ok(())
}
