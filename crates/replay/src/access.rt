// What a scan tells its callers.
ghost use Rattle.std.specs.Prelude.{◌≡◌};
ghost use Rattle.replay.specs.Damage.{slots_of, tops_of};

use crate::slot::Slot;
use crate::tables::Scan;

impl Scan {
    /// The keys that are told, in rising order, each with the page that tells it.
    pub fn keys(&self) -> &[Slot]
        ensures { result.now ≡ slots_of self.now }
    {
        self.slots.as_slice()
    }

    /// The highest number of a block's data pages, 0 where it has none. (0 is no page's number, so it needs no `Option`.)
    pub fn block_top(&self, block: usize) -> u32
        ensures { result ≡ tops_of self.now block }
    {
        self.tops.get(block).copied().unwrap_or(0)
    }
}
