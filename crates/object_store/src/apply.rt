// A batch made of a table in place: removals first, so that there are never more keys than in the end.
ghost use Rattle.std.specs.Prelude.{◌≡◌, ◌≤◌, true, length, take};
ghost use Rattle.object_store.specs.Changes.{in_order};
ghost use Rattle.object_store.specs.Objects.{after_batch, keys_of};
ghost use Rattle.object_store.specs.Settled.{HoldsNow, Placeable, settle as settle_spec};
ghost use Rattle.object_store.specs.Tables.{Rising};

use crate::batch::removes;
use crate::change::Change;
use crate::edit::{drop_removed, put_record};
use crate::kept::Kept;
use crate::table_store::TableStore;

impl TableStore<'_> {
    // Puts in the key that the change sets, unless the batch removes its file.
    fn settle(&mut self, changes: &[Change], change: &Change)
        ensures { HoldsNow self.old.places.now (settle_spec changes.now (take self.old.len self.old.places.now) change.now) self.new.len self.new.places.now }
    {
        if let Change::Set(key, object) = change
            && !removes(changes, key.file)
        {
            let kept = Kept {
                key: *key,
                object: *object,
            };
            self.len = put_record(self.places, self.len, kept);
        }
    }

    // Makes the batch of the map.
    pub(crate) fn make(&mut self, changes: &[Change])
        requires rising { Rising (keys_of (take self.old.len self.old.places.now)) }
        requires order { (in_order changes.now ≡ true) × (Placeable changes.now) }
        requires room { length (after_batch (take self.old.len self.old.places.now) changes.now) ≤ length self.old.places.now }
        ensures after { take self.new.len self.new.places.now ≡ after_batch (take self.old.len self.old.places.now) changes.now }
        ensures count { self.new.len ≡ length (after_batch (take self.old.len self.old.places.now) changes.now) }
        ensures long { length self.new.places.now ≡ length self.old.places.now }
    {
        self.len = drop_removed(self.places, self.len, changes);
        for change in changes {
            self.settle(changes, change);
        }
    }
}
