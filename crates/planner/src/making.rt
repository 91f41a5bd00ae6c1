// Making room, on the tables alone.
ghost use Rattle.planner.specs.Makes.{MakesRoom};

use crate::batch::is_group;
use crate::faults::RoomFault;
use crate::steps::Step;
use crate::tables::Tables;

impl Tables {
    /// Makes room for a group of `g` pages, 1 to 4, on the tables alone. Where that is refused, nothing changes. A journal
    /// carries out the same steps on its flash: here is said what they come to.
    pub fn make_room(&mut self, g: usize) -> Result<(), RoomFault>
        ensures { MakesRoom self.old g result self.new }
    {
        if !is_group(g) {
            return Err(RoomFault::Size);
        }
        loop {
            match self.next_step(g) {
                Step::Ready => return Ok(()),
                Step::Open { block } => self.opened(block),
                Step::Copy { slot, floor } => self.copied(slot, floor),
                Step::Spent => return Err(RoomFault::Spent),
            }
        }
    }
}
