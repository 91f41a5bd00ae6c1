// What a batch is made of.
ghost use Rattle.std.specs.Prelude.{◌≡◌};
ghost use Rattle.object_store.specs.Changes.{change_fits, file_of, object_fits, part_fits, sets as sets_spec, sets_in, takes as takes_spec};

use object::{Key, Object};
use page::CHUNK_LIMIT;

/// One change to a map.
#[derive(Clone, Copy)]
pub enum Change {
    /// Puts the object under the key, in place of any that stood there.
    Set(Key, Object),
    /// Removes all keys of this file.
    Remove(u32),
}

// Whether the object is one that this part may hold.
fn may_hold(part: u8, object: &Object) -> bool
    ensures { result ≡ object_fits part object.now }
{
    match object {
        Object::Entry(entry) => part == 0 && entry.fits(),
        Object::Chunk(_) => (1..=CHUNK_LIMIT).contains(&part),
    }
}

impl Change {
    /// The file that it speaks of.
    pub fn file(&self) -> u32
        ensures { result ≡ file_of self.now }
    {
        match self {
            Change::Set(key, _) => key.file,
            Change::Remove(file) => *file,
        }
    }

    fn part_fits(&self) -> bool
        ensures { result ≡ part_fits self.now }
    {
        match self {
            Change::Set(key, object) => may_hold(key.part, object),
            Change::Remove(_) => true,
        }
    }

    // Whether every field is in its range.
    pub(crate) fn fits(&self) -> bool
        ensures { result ≡ change_fits self.now }
    {
        1 <= self.file() && self.part_fits()
    }

    // Whether it sets this key.
    pub(crate) fn sets(&self, key: &Key) -> bool
        ensures { result ≡ sets_spec self.now key.now }
    {
        matches!(self, Change::Set(set, _) if set == key)
    }

    // Whether it sets a key of this file.
    pub(crate) fn sets_in(&self, file: u32) -> bool
        ensures { result ≡ sets_in self.now file }
    {
        matches!(self, Change::Set(key, _) if key.file == file)
    }

    // Whether it removes this file.
    pub(crate) fn takes(&self, file: u32) -> bool
        ensures { result ≡ takes_spec self.now file }
    {
        matches!(self, Change::Remove(removed) if *removed == file)
    }
}
