// The slots of a chip, from its remembered pages.
ghost use Rattle.std.specs.Prelude.{◌≡◌, ℕ, ◌<◌, ◌≤◌, [], length, ◌≢◌, slice_index_or};
ghost use Rattle.lookup.specs.Rows.{rows};
ghost use Rattle.lookup.specs.Sorts.{InPlace};
ghost use Rattle.object.specs.Rank.{key_rank};
ghost use Rattle.object.specs.declared.slot.Slot.{Slot as Place};
ghost use Rattle.replay.specs.Slots.{Collects, ShowsWanted, slot_at, slot_rank, SmallParts};

use crate::pages::Pages;
use crate::seen::Seen;
use crate::slot::Slot;
use crate::tables::PAGE_LIMIT;
use crate::wants::Wants;
use lookup::Table;
use object::Key;

// Puts a key that is not there yet among the slots.
fn put_slot(slots: &mut Table<Slot, PAGE_LIMIT>, key: Key, page: &Seen)
    requires room { length (rows slots.old) < 256 }
    requires new { (i : ℕ) (d : Place ℕ) → i < length (rows slots.old) → slot_rank (slice_index_or (rows slots.old) i d) ≢ key_rank key }
    ensures { InPlace slot_rank (rows slots.old) (slot_at key page.now) (rows slots.new) }
{
    let slot = Slot {
        key,
        place: page.place,
        number: page.header.number,
    };
    match slots.insert(slot) {
        Ok(()) => {}
        Err(_) => unreachable(),
    }
}

impl Pages<'_> {
    // The key that the page at `i` shows, where it is wanted.
    fn shows_wanted<W: Wants>(&self, i: usize, wants: &W) -> Option<Key>
        requires { i < length self.now.seen.now }
        ensures { ShowsWanted self.now.seen.now self.now.whole.now self.now.floor i (W.Wants.wanted wants.now) result }
    {
        self.shows(i).filter(|key| wants.wants(key))
    }

    // The wanted keys of those that are shown, in rising order, in a table that holds none yet. It is lent, since one that is
    // handed out is copied.
    pub(crate) fn collect<W: Wants>(&self, wants: &W, slots: &mut Table<Slot, PAGE_LIMIT>)
        requires small { SmallParts self.now.seen.now }
        requires none { rows slots.old ≡ [] }
        ensures { Collects self.now.seen.now self.now.whole.now self.now.floor (length self.now.seen.now) (W.Wants.wanted wants.now) (rows slots.new) }
    {
        for (i, page) in self.seen.iter().enumerate() {
            if let Some(key) = self.shows_wanted(i, wants) {
                put_slot(slots, key, page);
            }
        }
    }
}
