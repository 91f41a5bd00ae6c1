// Finding, telling and forgetting keys.
ghost use Rattle.std.specs.Prelude.{◌≡◌, ◌<◌, [], length, slice_index_or, slice_set};
ghost use Rattle.lookup.specs.Found.{Found};
ghost use Rattle.planner.specs.Shape.{blank};
ghost use Rattle.planner.specs.Slots.{listed, Puts, Forgets};

use crate::slot::{Place, Slot};
use crate::slots::Slots;
use lookup::{Table, Unplaced, find};
use object::Key;

impl Slots {
    /// No key is told.
    pub fn new() -> Slots
        ensures { listed result ≡ [] }
    {
        Slots {
            table: Table::new(Slot::default()),
        }
    }

    /// The slots in use, by rising key.
    pub fn as_slice(&self) -> &[Slot]
        ensures { result.now ≡ listed self.now }
    {
        self.table.as_slice()
    }

    // How many keys are told.
    pub(crate) fn len(&self) -> usize
        ensures { result ≡ length (listed self.now) }
    {
        self.as_slice().len()
    }

    /// Where the slot of the key is.
    pub fn find(&self, key: &Key) -> Option<usize>
        ensures { Found (λ s. s.key) (listed self.now) key.now result }
    {
        find(self.as_slice(), key)
    }

    /// Tells the slot's key by the slot. Nothing changes where the key is new and all places are taken.
    pub fn put(&mut self, slot: Slot) -> Result<(), Unplaced>
        ensures { Puts (listed self.old) slot result (listed self.new) }
    {
        self.table.put(slot)
    }

    /// Forgets all keys of the file.
    pub fn forget(&mut self, file: u32)
        ensures { Forgets (listed self.old) file (listed self.new) }
    {
        self.table.retain(|slot| slot.key.file != file);
    }

    // The key of the slot is told by another page now.
    pub(crate) fn move_to(&mut self, at: usize, place: Place, number: u32)
        requires { at < length (listed self.old) }
        ensures { listed self.new ≡ slice_set (listed self.old) at (record { key = (slice_index_or (listed self.old) at blank).key; place = place; number = number }) }
    {
        let key = self.as_slice()[at].key;
        self.table.replace(at, Slot { key, place, number });
    }
}
