// An object store in the caller's memory.
ghost use Rattle.std.specs.Prelude.{◌≡◌, ◌≤◌, length, min, take};
ghost use Rattle.object_store.specs.Lent.{TableWhole, gap, table_shelf, table_verdict};
ghost use Rattle.object_store.specs.Objects.{found, keys_of};

use crate::change::Change;
use crate::check::judge;
use crate::fault::ObjectFault;
use crate::kept::Kept;
use crate::store::{KEY_LIMIT, ObjectStore};
use crate::work::check_page;
use lookup::find;
use object::{Key, Object};

// What stands under the key.
fn find_object(map: &[Kept], key: &Key) -> Option<Object>
    ensures { result ≡ found map.now key.now }
{
    find(map, key).map(|i| map[i].object)
}

// The lowest number that no key is of.
fn lowest_unused(map: &[Kept]) -> u32
    requires { length map.now ≤ 208 }
    ensures { result ≡ gap 1 (keys_of map.now) }
{
    let mut number = 1;
    for kept in map {
        if kept.key.file == number {
            number += 1;
        }
    }
    number
}

/// A map in lent places, up to 208 of them. Its power never goes, and its numbers are never spent.
#[derive(Drop)]
pub struct TableStore<'a> {
    // Lent, as there is no heap; the first ones hold the map.
    pub(crate) places: &'a mut [Kept],
    pub(crate) len: usize,
    ghost within: { len ≤ length places.now },
}

impl<'a> TableStore<'a> {
    /// An empty map in these places.
    pub fn new(places: &'a mut [Kept]) -> TableStore<'a>
        ensures places { result.places.now ≡ places.old }
        ensures empty { result.len ≡ 0 }
        ensures whole { TableWhole result.places.now result.len }
    {
        TableStore { places, len: 0 }
    }

    // The keys and what stands under them.
    fn map(&self) -> &[Kept]
        ensures { result.now ≡ take self.now.len self.now.places.now }
    {
        &self.places[..self.len]
    }

    // The places, up to 208.
    fn room(&self) -> usize
        ensures { result ≡ min (length self.now.places.now) 208 }
    {
        self.places.len().min(KEY_LIMIT)
    }

    // The answer to a batch.
    fn judge(&self, changes: &[Change]) -> Result<(), ObjectFault>
        requires { TableWhole self.now.places.now self.now.len }
        ensures { result ≡ table_verdict self.now.places.now self.now.len changes.now }
    {
        let map = self.map();
        judge(map, self.room(), lowest_unused(map), false, changes)
    }
}

impl ObjectStore for TableStore<'_> {
    ghost whole = { λ s. TableWhole s.places.now s.len };

    ghost shelf = { λ s. table_shelf s.places.now s.len };

    ghost sound = { λ s h. h.sound };

    ghost keeps = { λ _. Unit {0} };

    fn count(&self) -> Result<usize, ObjectFault> {
        Ok(self.len)
    }

    fn key(&self, index: usize) -> Result<Option<Key>, ObjectFault> {
        Ok(self.map().get(index).map(|kept| kept.key))
    }

    fn limit(&self) -> Result<usize, ObjectFault> {
        Ok(self.room())
    }

    fn unused(&self) -> Result<u32, ObjectFault> {
        Ok(lowest_unused(self.map()))
    }

    fn is_spent(&self) -> Result<bool, ObjectFault> {
        Ok(false)
    }

    fn get(&self, work: &mut [u8], key: &Key) -> Result<Option<Object>, ObjectFault> {
        check_page(work)?;
        Ok(find_object(self.map(), key))
    }

    fn batch(&mut self, work: &mut [u8], changes: &[Change]) -> Result<(), ObjectFault> {
        check_page(work)?;
        self.judge(changes)?;
        self.make(changes);
        Ok(())
    }

    fn format(&mut self, work: &mut [u8]) -> Result<(), ObjectFault> {
        check_page(work)?;
        self.len = 0;
        Ok(())
    }

    fn mount(&mut self, work: &mut [u8]) -> Result<(), ObjectFault> {
        check_page(work)
    }
}
