// Changes to a table whose first records are by rising key. How many count stands beside it: its memory is lent, as
// there is no heap.
ghost use Rattle.std.specs.Prelude.{◌≡◌, ◌<◌, ◌≤◌, length};
ghost use Rattle.object_store.specs.Edits.{Puts, Spares, Unchanged};

use crate::batch::removes;
use crate::change::Change;
use crate::table::OfKey;
use lookup::{insert_at, retain};

/// Puts a record among the first `len`, by rising key, in place of the one with its key; answers how many there are then.
///
/// Where the table has no room for it, nothing changes.
pub fn put_record<R: OfKey + Copy>(records: &mut [R], len: usize, new: R) -> usize
    ensures puts { len ≤ length records.old → Puts R.Keyed.keyed records.old len new result records.new }
    ensures refused { length records.old < len → Unchanged records.old len result records.new }
{
    if len > records.len() {
        return len;
    }
    let key = new.key();
    let rank = key.rank();
    // Not `leading` of lookup: to ask that these records are `Ranked` would ask more of callers, and a rank passed as a
    // closure takes more clauses than this chain.
    let at = records[..len]
        .iter()
        .position(|record| record.key().rank() >= rank)
        .unwrap_or(len);
    if records[..len]
        .get(at)
        .is_some_and(|record| record.key() == key)
    {
        records[at] = new;
        return len;
    }
    // The number tells a refusal too: callers know it by that.
    match insert_at(records, len, at, new) {
        Ok(()) => len + 1,
        Err(_) => len,
    }
}

/// Leaves out, of the first `len` records, those of files that the changes remove; answers how many are left.
pub fn drop_removed<R: OfKey + Copy>(records: &mut [R], len: usize, changes: &[Change]) -> usize
    ensures spares { len ≤ length records.old → Spares R.Keyed.keyed records.old len changes.now result records.new }
    ensures refused { length records.old < len → Unchanged records.old len result records.new }
{
    if len > records.len() {
        return len;
    }
    retain(records, len, |record| !removes(changes, record.key().file))
}
