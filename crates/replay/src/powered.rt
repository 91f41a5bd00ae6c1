// A flash that answers.
ghost use Rattle.std.specs.Prelude.{◌≡◌, true};

use flash::ReadFlash;

/// A flash with its power on. The working page stays beside it: that is written, and the flash is only read.
#[derive(Drop)]
pub(crate) struct PoweredFlash<'a, F: ReadFlash> {
    pub(crate) flash: &'a F,
    ghost on: { (F.ReadFlash.chip flash.now).on ≡ true },
}
