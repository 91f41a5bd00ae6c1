// Tables of records that each stand for one key.
ghost use Rattle.std.specs.Prelude.{◌≡◌, map};
ghost use Rattle.object_store.specs.Tables.{has_file, has_key};

use crate::kept::Kept;
use lookup::{Keyed, find};
use object::Key;

/// A record of a table that stands for one key.
pub trait OfKey: Keyed<Key = Key> {
    fn key(&self) -> Key
        ensures { result ≡ Self.Keyed.keyed self.now };
}

impl OfKey for Kept {
    fn key(&self) -> Key {
        self.key
    }
}

// Whether one of the records stands for the key.
pub(crate) fn has_key<R: OfKey>(table: &[R], key: &Key) -> bool
    ensures { result ≡ has_key (map R.Keyed.keyed table.now) key.now }
{
    find(table, key).is_some()
}

// Whether one of the records stands for a key of the file.
pub(crate) fn has_file<R: OfKey>(table: &[R], file: u32) -> bool
    ensures { result ≡ has_file (map R.Keyed.keyed table.now) file }
{
    table
        .iter()
        .map(|record| record.key())
        .any(|key| key.file == file)
}
