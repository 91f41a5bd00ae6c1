// Numbers, and how many are left.
ghost use Rattle.std.specs.Prelude.{◌≡◌, ℕ, ◌+◌, ◌^◌, ◌<◌, Decides, MatchOption};
ghost use Rattle.planner.specs.Batches.{BatchFloor};
ghost use Rattle.planner.specs.Shape.{spent_above};
ghost use Rattle.planner.specs.State.{limit};
ghost use Rattle.planner.specs.Steps.{state};

use crate::sizes::key_limit;
use crate::tables::Tables;

/// Numbers are spent once one is above this: 65,535 below the highest.
pub const SPENT_ABOVE: u32 = 4294901760;

impl Tables {
    /// Whether numbers are spent.
    pub fn is_spent(&self) -> bool
        ensures { Decides result (spent_above < self.now.last) }
    {
        self.last > SPENT_ABOVE
    }

    /// The number after the last one, if there is one.
    pub fn unused(&self) -> Option<u32>
        ensures { MatchOption result (self.now.last + 1 ≡ 2 ^ 32) (λ n. n ≡ self.now.last + 1) }
    {
        self.last.checked_add(1)
    }

    /// The floor of the next batch: the lowest number that tells a key, or the next number where there is no key.
    pub fn batch_floor(&self) -> Option<u32>
        ensures { MatchOption result (self.now.last + 1 ≡ 2 ^ 32) (λ f. BatchFloor (state self.now) f) }
    {
        match self.lowest() {
            Some(slot) => Some(self.slots.as_slice()[slot].number),
            None => self.unused(),
        }
    }

    /// How many keys there may be.
    pub fn limit(&self) -> usize
        ensures { result ≡ limit self.now.per self.now.blocks }
    {
        key_limit(self.per, self.blocks)
    }
}
