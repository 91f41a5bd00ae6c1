// The slots of all keys, without a heap.
ghost use Rattle.lookup.specs.Rows.{rows};
ghost use Rattle.planner.specs.Order.{Narrow};

use crate::sizes::MOST_SLOTS;
use crate::slot::Slot;
use lookup::Table;

/// The slots in use, by rising key. There is a place for each key of the largest chip, and for a batch beyond.
#[derive(Clone, Copy)]
pub struct Slots {
    pub(crate) table: Table<Slot, MOST_SLOTS>,
    ghost narrow: { ∥ Narrow (rows table) ∥₁ },
}
