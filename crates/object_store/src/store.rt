// An object store by what it means: a map that no code holds, and what each call makes of it.
ghost use Rattle.std.specs.Prelude.{◌≡◌, length};
ghost use Rattle.object_store.specs.Objects.{Objects, found, keys_of};
ghost use Rattle.object_store.specs.Says.{Batches, Formats, Mounts, Untouched, paged, told};
ghost use Rattle.object_store.specs.Shelf.{Shelf, Sound, key_at};

use crate::change::Change;
use crate::fault::ObjectFault;
use object::{Key, Object};

/// The most keys of any store.
pub const KEY_LIMIT: usize = 208;

/// A map from keys to objects that is changed by batches, each at one stroke.
///
/// A call that may read or write pages is lent a working page of 256 bytes. Power goes only in a batch, a format or a
/// mount, and that call says so; while it is off, all but format and mount answer "off".
pub trait ObjectStore {
    /// What its maker promised and every call keeps. It is the one thing that calls ask.
    ghost whole: { Self → Type 0 };

    ghost shelf: { Self → Shelf };

    ghost sound: { (x : Self) → whole x → Sound (shelf x) };

    /// The maps that mounting keeps.
    ghost keeps: { Objects → Type 0 };

    /// How many keys the map has.
    fn count(&self) -> Result<usize, ObjectFault>
        requires { whole self.now }
        ensures { result ≡ told (shelf self.now) (length (shelf self.now).objects) };

    /// The key at an index, by rising key.
    fn key(&self, index: usize) -> Result<Option<Key>, ObjectFault>
        requires { whole self.now }
        ensures { result ≡ told (shelf self.now) (key_at (keys_of (shelf self.now).objects) index) };

    /// The most keys that the map may have.
    fn limit(&self) -> Result<usize, ObjectFault>
        requires { whole self.now }
        ensures { result ≡ told (shelf self.now) (shelf self.now).limit };

    /// A file number of 1 or more that no key has.
    fn unused(&self) -> Result<u32, ObjectFault>
        requires { whole self.now }
        ensures { result ≡ told (shelf self.now) (shelf self.now).unused };

    /// Whether numbers are spent, so that every batch is refused.
    fn is_spent(&self) -> Result<bool, ObjectFault>
        requires { whole self.now }
        ensures { result ≡ told (shelf self.now) (shelf self.now).spent };

    /// What stands under a key, or that nothing does.
    fn get(&self, work: &mut [u8], key: &Key) -> Result<Option<Object>, ObjectFault>
        requires { whole self.now }
        ensures answer { result ≡ paged (length work.old) (told (shelf self.now) (found (shelf self.now).objects key.now)) }
        ensures buffer { Untouched (length work.old) work.old work.new };

    /// Makes one to four changes at one stroke.
    fn batch(&mut self, work: &mut [u8], changes: &[Change]) -> Result<(), ObjectFault>
        requires { whole self.old }
        ensures says { Batches (length work.old) (shelf self.old) changes.now result (shelf self.new) }
        ensures buffer { Untouched (length work.old) work.old work.new }
        ensures whole { whole self.new };

    /// Makes the map an empty one.
    fn format(&mut self, work: &mut [u8]) -> Result<(), ObjectFault>
        requires { whole self.old }
        ensures says { Formats (length work.old) (shelf self.old) result (shelf self.new) }
        ensures buffer { Untouched (length work.old) work.old work.new }
        ensures whole { whole self.new };

    /// Powers up and reads the map that is there.
    fn mount(&mut self, work: &mut [u8]) -> Result<(), ObjectFault>
        requires { whole self.old }
        ensures says { Mounts keeps (length work.old) (shelf self.old) result (shelf self.new) }
        ensures buffer { Untouched (length work.old) work.old work.new }
        ensures whole { whole self.new };
}
