// Which batches are refused, told from the keys of a table.
ghost use Rattle.std.specs.Prelude.{◌≡◌, ◌+◌, ◌≤◌, true, ◌&&◌, [], map, length};
ghost use Rattle.object_store.specs.Changes.{change_fits, file_of, in_order};
ghost use Rattle.object_store.specs.Counts.{all_stand, brings as brings_spec, brought, stands as stands_spec, staying};
ghost use Rattle.object_store.specs.Fit.{Judges, count_fits, each_fits as each_fits_spec, known as known_spec};
ghost use Rattle.object_store.specs.Judged.{keys_by};

use crate::batch::{is_in_order, removes, sets_key};
use crate::change::Change;
use crate::fault::ObjectFault;
use crate::table::{OfKey, has_file, has_key};
use object::Key;
use page::GROUP_LIMIT;

/// The most changes of a batch, which is one group of pages.
pub const BATCH_LIMIT: usize = GROUP_LIMIT as usize;

// A batch, and the table of keys that it is judged by.
#[derive(Drop)]
struct Judged<'a, R> {
    table: &'a [R],
    // The file number that the store tells as unused.
    unused: u32,
    changes: &'a [Change],
}

impl<R: OfKey> Judged<'_, R> {
    // Whether a change may speak of the file: it is in the table, or told as unused.
    fn is_known(&self, file: u32) -> bool
        ensures { result ≡ known_spec (keys_by R.Keyed.keyed self.now) self.now.unused file }
    {
        has_file(self.table, file) || file == self.unused
    }

    // Whether the change has its fields in range and speaks of a known file.
    fn admits(&self, change: &Change) -> bool
        ensures { result ≡ (change_fits change.now && known_spec (keys_by R.Keyed.keyed self.now) self.now.unused (file_of change.now)) }
    {
        change.fits() && self.is_known(change.file())
    }

    // Whether every change is admitted.
    fn each_fits(&self) -> bool
        ensures { result ≡ each_fits_spec (keys_by R.Keyed.keyed self.now) self.now.unused self.now.changes.now }
    {
        self.changes.iter().all(|change| self.admits(change))
    }

    // Whether the key that the change sets is removed again, or its file has an entry before or by the batch.
    fn stands(&self, change: &Change) -> bool
        ensures { result ≡ stands_spec (keys_by R.Keyed.keyed self.now) self.now.changes.now change.now }
    {
        match change {
            Change::Set(key, _) => {
                let entry = Key::entry(key.file);
                removes(self.changes, key.file)
                    || has_key(self.table, &entry)
                    || sets_key(self.changes, &entry)
            }
            Change::Remove(_) => true,
        }
    }

    // Whether no chunk that the batch sets is left with no entry.
    fn all_stand(&self) -> bool
        ensures { result ≡ all_stand (keys_by R.Keyed.keyed self.now) self.now.changes.now self.now.changes.now }
    {
        self.changes.iter().all(|change| self.stands(change))
    }

    // How many keys of the table stay.
    fn count_staying(&self) -> usize
        ensures within { result ≤ length self.now.table.now }
        ensures count { result ≡ staying self.now.changes.now (keys_by R.Keyed.keyed self.now) }
    {
        self.table
            .iter()
            .map(|record| record.key())
            .filter(|key| !removes(self.changes, key.file))
            .count()
    }

    // Whether the change brings a key that stays and was neither in the table nor set by an earlier change.
    fn brings(&self, earlier: &[Change], change: &Change) -> bool
        ensures { result ≡ brings_spec (keys_by R.Keyed.keyed self.now) self.now.changes.now earlier.now change.now }
    {
        match change {
            Change::Set(key, _) => {
                !removes(self.changes, key.file)
                    && !has_key(self.table, key)
                    && !sets_key(earlier, key)
            }
            Change::Remove(_) => false,
        }
    }

    // How many new keys the batch brings.
    fn count_brought(&self) -> usize
        ensures within { result ≤ length self.now.changes.now }
        ensures count { result ≡ brought (keys_by R.Keyed.keyed self.now) self.now.changes.now [] self.now.changes.now }
    {
        self.changes
            .iter()
            .enumerate()
            .filter(|(i, change)| self.brings(&self.changes[..*i], change))
            .count()
    }

    // How many keys the batch leaves.
    fn count_after(&self) -> usize
        ensures { length self.now.table.now ≤ 208 → length self.now.changes.now ≤ 4 → result ≡ staying self.now.changes.now (keys_by R.Keyed.keyed self.now) + brought (keys_by R.Keyed.keyed self.now) self.now.changes.now [] self.now.changes.now }
    {
        // A table that is judged for nothing may be of any length.
        self.count_staying().saturating_add(self.count_brought())
    }

    // Whether the batch can be made of a map with these keys, whose chunks all have entries.
    fn is_fit(&self) -> bool
        ensures { result ≡ (count_fits self.now.changes.now && each_fits_spec (keys_by R.Keyed.keyed self.now) self.now.unused self.now.changes.now && in_order self.now.changes.now && all_stand (keys_by R.Keyed.keyed self.now) self.now.changes.now self.now.changes.now) }
    {
        (1..=BATCH_LIMIT).contains(&self.changes.len())
            && self.each_fits()
            && is_in_order(self.changes)
            && self.all_stand()
    }
}

/// The answer to a batch, told from a table of the map's keys before anything is changed.
///
/// For those who write an object store, and whose table has at most 208 keys, by rising key, with an entry to each chunk.
pub fn judge<R: OfKey>(
    table: &[R],
    limit: usize,
    unused: u32,
    spent: bool,
    changes: &[Change],
) -> Result<(), ObjectFault>
    ensures { Judges (map R.Keyed.keyed table.now) limit unused spent changes.now result }
{
    let judged = Judged {
        table,
        unused,
        changes,
    };
    if !judged.is_fit() {
        return Err(ObjectFault::Unfit);
    }
    if limit < judged.count_after() {
        return Err(ObjectFault::Full);
    }
    if spent {
        return Err(ObjectFault::Spent);
    }
    Ok(())
}
