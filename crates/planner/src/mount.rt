// Tables from a scan.
ghost use Rattle.std.specs.Prelude.{◌≡◌, ℕ, ◌<◌, ◌≤◌, length, Decides, slice_index_or};
ghost use Rattle.planner.specs.Slots.{listed};
ghost use Rattle.planner.specs.Shape.{blank};
ghost use Rattle.planner.specs.State.{Free};
ghost use Rattle.planner.specs.Mountable.{found, Sized, Placed, Agree, Mountable, Mounting};

use crate::head::Phase;
use crate::scanned::Scanned;
use crate::sizes::{are_sizes, key_limit};
use crate::slot::Slot;
use crate::slots::Slots;
use crate::tables::Tables;

impl Scanned {
    // The highest number in the block, 0 where there is no such block.
    fn high_of(&self, block: u8) -> u32
        ensures { result ≡ (found self.now).high block }
    {
        self.high.get(block as usize).copied().unwrap_or(0)
    }

    // Whether the chip, its number of keys and its floor are such as ours.
    fn is_sized(&self) -> bool
        ensures { Decides result (Sized (found self.now)) }
    {
        are_sizes(self.per_block, self.blocks)
            && 0 < self.floor
            && self.floor - 1 <= self.last
            && self.slots.len() <= key_limit(self.per_block, self.blocks)
    }

    // Whether no block has a number above the last one.
    fn is_last(&self) -> bool
        ensures { Decides result ((b : ℕ) → b < self.now.blocks → (found self.now).high b ≤ self.now.last) }
    {
        (0..self.blocks).all(|block| self.high_of(block) <= self.last)
    }

    // Whether the key is told by a page of the chip that its block knows of.
    fn is_placed(&self, slot: &Slot) -> bool
        ensures { (k : ℕ) → slice_index_or (listed self.now.slots) k blank ≡ slot.now → Decides result (Placed (found self.now) k) }
    {
        slot.place.block < self.blocks
            && slot.place.index < self.per_block
            && self.floor <= slot.number
            && slot.number <= self.high_of(slot.place.block)
    }

    // Whether all are.
    fn are_placed(&self) -> bool
        ensures { Decides result ((k : ℕ) → k < length (listed self.now.slots) → Placed (found self.now) k) }
    {
        let mut slots = self.slots.as_slice().iter();
        slots.all(|slot| self.is_placed(slot))
    }

    // Whether two keys are one, or told by different pages, in blocks whose numbers do not interleave.
    fn agree(&self, one: &Slot, other: &Slot) -> bool
        ensures { (j k : ℕ) → j < length (listed self.now.slots) → k < length (listed self.now.slots) → slice_index_or (listed self.now.slots) j blank ≡ one.now → slice_index_or (listed self.now.slots) k blank ≡ other.now → Decides result (Agree (found self.now) j k) }
    {
        if one.key == other.key {
            return true;
        }
        if one.place.block == other.place.block {
            return one.place.index != other.place.index && one.number != other.number;
        }
        one.number > other.number
            || one.number < other.number && self.high_of(one.place.block) < other.number
    }

    // Whether the key agrees so with all others.
    fn agrees(&self, one: &Slot) -> bool
        ensures { (j : ℕ) → j < length (listed self.now.slots) → slice_index_or (listed self.now.slots) j blank ≡ one.now → Decides result ((k : ℕ) → k < length (listed self.now.slots) → Agree (found self.now) j k) }
    {
        let mut slots = self.slots.as_slice().iter();
        slots.all(|other| self.agree(one, other))
    }

    // Whether all keys do.
    fn all_agree(&self) -> bool
        ensures { Decides result ((j : ℕ) → j < length (listed self.now.slots) → (k : ℕ) → k < length (listed self.now.slots) → Agree (found self.now) j k) }
    {
        let mut slots = self.slots.as_slice().iter();
        slots.all(|one| self.agrees(one))
    }

    // Whether a block is free.
    fn has_free(&self) -> bool
        ensures { Decides result ((b : ℕ) × Free (found self.now) b) }
    {
        (0..self.blocks).any(|block| self.high_of(block) < self.floor)
    }

    // Whether the chip is one that a journal left.
    fn is_mountable(&self) -> bool
        ensures { Decides result (Mountable (found self.now)) }
    {
        self.is_sized()
            && self.is_last()
            && self.are_placed()
            && self.all_agree()
            && self.has_free()
    }
}

impl Tables {
    /// The tables of a chip, as a scan found it: there is no head, so the next batch opens a block. The slots are given back
    /// where the chip is not one that a journal left with a block to spare.
    pub fn mount(scanned: Scanned) -> Result<Tables, Slots>
        ensures { Mounting scanned result }
    {
        if !scanned.is_mountable() {
            return Err(scanned.slots);
        }
        Ok(Tables {
            slots: scanned.slots,
            high: scanned.high,
            per: scanned.per_block,
            blocks: scanned.blocks,
            floor: scanned.floor,
            last: scanned.last,
            head: None,
            phase: Phase::AtRest,
        })
    }
}
