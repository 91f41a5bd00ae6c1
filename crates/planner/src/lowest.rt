// The lowest numbers, and the floors that follow from them.
ghost use Rattle.std.specs.Prelude.{◌≡◌, ℕ, ◌+◌, ◌^◌, ◌<◌, ◌≤◌, length, MatchOption, Decides, ◌≢◌, slice_index_or};
ghost use Rattle.planner.specs.Slots.{listed};
ghost use Rattle.planner.specs.Shape.{blank};
ghost use Rattle.planner.specs.State.{Lowest};
ghost use Rattle.planner.specs.Moves.{Carries};
ghost use Rattle.planner.specs.Steps.{state, LowestBut};

use crate::slot::Slot;
use crate::tables::Tables;

// Where the lowest number is.
fn lowest_of(slots: &[Slot]) -> Option<usize>
    ensures { MatchOption result (length slots.now ≡ 0) (λ i. (i < length slots.now) × ((k : ℕ) → k < length slots.now → (slice_index_or slots.now i blank).number ≤ (slice_index_or slots.now k blank).number)) }
{
    let slots = slots.iter().enumerate();
    slots.min_by_key(|(_, slot)| slot.number).map(|(k, _)| k)
}

impl Tables {
    // The key with the lowest number.
    pub(crate) fn lowest(&self) -> Option<usize>
        ensures { MatchOption result (length (listed self.now.slots) ≡ 0) (λ i. Lowest (state self.now) i) }
    {
        lowest_of(self.slots.as_slice())
    }

    // Whether another key lies in the slot's block.
    fn is_shared(&self, slot: &Slot) -> bool
        ensures { Decides result ((k : ℕ) × (k < length (listed self.now.slots)) × (((slice_index_or (listed self.now.slots) k blank).key ≢ slot.now.key) × ((state self.now).block k ≡ slot.now.place.block))) }
    {
        let mut slots = self.slots.as_slice().iter();
        slots.any(|other| other.key != slot.key && other.place.block == slot.place.block)
    }

    // The lowest number that tells another key.
    fn lowest_but(&self, slot: &Slot) -> Option<u32>
        ensures { MatchOption result ((k : ℕ) → k < length (listed self.now.slots) → (slice_index_or (listed self.now.slots) k blank).key ≡ slot.now.key) (λ f. LowestBut self.now slot.now.key f) }
    {
        let slots = self.slots.as_slice().iter();
        slots
            .filter(|other| other.key != slot.key)
            .map(|other| other.number)
            .min()
    }

    // The floor that the copy of the key i carries.
    pub(crate) fn floor_after(&self, i: usize) -> u32
        requires real { i < length (listed self.now.slots) }
        requires fits { self.now.last + 1 < 2 ^ 32 }
        ensures { Carries (state self.now) i result }
    {
        let slot = &self.slots.as_slice()[i];
        if self.is_shared(slot) {
            return self.floor;
        }
        self.lowest_but(slot).unwrap_or(self.last + 1)
    }
}
