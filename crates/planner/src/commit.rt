// A batch is written into the room made for it.
ghost use Rattle.std.specs.Prelude.{◌≡◌, ℕ, ◌+◌, ◌^◌, ◌<◌, ◌≤◌, length, Some, Decides};
ghost use Rattle.planner.specs.Batches.{BatchFloor};
ghost use Rattle.planner.specs.Commits.{Batches, Commits, MayWrite};
ghost use Rattle.planner.specs.Full.{FullAfter};
ghost use Rattle.planner.specs.Room.{Room};
ghost use Rattle.planner.specs.Slots.{listed};
ghost use Rattle.planner.specs.State.{limit};
ghost use Rattle.planner.specs.Steps.{state};
ghost use Rattle.planner.specs.Written.{Written};

use crate::batch::{BATCH_PAGES, is_group, written};
use crate::faults::BatchFault;
use crate::free::Spares;
use crate::head::{Head, Phase};
use crate::says::Says;
use crate::slots::Slots;
use crate::tables::Tables;

/// A batch is written only while its four numbers fit.
const LAST_BEFORE_BATCH: u32 = u32::MAX - 4;

impl Tables {
    /// Whether there is room for a group of `g` pages.
    pub fn has_room(&self, g: usize) -> bool
        ensures { 1 ≤ g → Decides result (Room (state self.now) g) }
    {
        self.has_left(g)
            && (self.slots.len() == 0 || matches!(self.spares(), Spares::One(_) | Spares::More(_)))
    }

    // Whether a batch can be written, as far as pages and numbers go.
    fn may_write(&self, pages: &[Says]) -> Result<(), BatchFault>
        ensures { MayWrite self.now pages.now result }
    {
        if !is_group(pages.len()) {
            return Err(BatchFault::Size);
        }
        if self.last > LAST_BEFORE_BATCH {
            return Err(BatchFault::Spent);
        }
        if !self.has_room(pages.len()) {
            return Err(BatchFault::NoRoom);
        }
        Ok(())
    }

    /// Whether a batch of up to four pages would leave more keys than the limit.
    pub fn is_full_after(&self, pages: &[Says]) -> bool
        ensures { length pages.now ≤ 4 → FullAfter self.now pages.now result }
    {
        if pages.len() > BATCH_PAGES {
            return true;
        }
        // Which pages are written where does not change how many keys there are.
        let after = written(self.slots, pages, Head { block: 0, used: 0 }, 0);
        after.len() > self.limit()
    }

    // The pages are written, and these are the slots after them.
    fn commit(&mut self, pages: &[Says], head: Head, after: Slots, floor: u32)
        requires head { self.old.head ≡ Some head }
        requires some { 1 ≤ length pages.now }
        requires room { Room (state self.old) (length pages.now) }
        requires fits { self.old.last + length pages.now < 2 ^ 32 }
        requires floor { BatchFloor (state self.old) floor }
        requires limited { length (listed after) ≤ limit self.old.per self.old.blocks }
        requires written { Written (listed self.old.slots) pages.now head.block head.used (self.old.last + 1) (length pages.now) (listed after) }
        ensures { Commits self.old pages.now self.new }
    {
        self.last += pages.len() as u32;
        self.slots = after;
        self.high[head.block as usize] = self.last;
        self.floor = floor;
        self.head = Some(Head {
            block: head.block,
            used: head.used + pages.len() as u8,
        });
        self.phase = Phase::AtRest;
    }

    /// The pages of a batch were written to the head, one after another with the next numbers and the batch's floor. Where that
    /// is refused, nothing changes.
    pub fn batch(&mut self, pages: &[Says]) -> Result<(), BatchFault>
        ensures { Batches self.old pages.now result self.new }
    {
        self.may_write(pages)?;
        let head = self.head.ok_or(BatchFault::NoRoom)?;
        let floor = self.batch_floor().ok_or(BatchFault::Spent)?;
        let after = written(self.slots, pages, head, self.last);
        if after.len() > self.limit() {
            return Err(BatchFault::Full);
        }
        self.commit(pages, head, after, floor);
        Ok(())
    }
}
