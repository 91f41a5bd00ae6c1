// Code over any object store, proved once for all kinds.
ghost use Rattle.std.specs.Prelude.{◌≡◌, length};
ghost use Rattle.object_store.specs.Objects.{keys_of};
ghost use Rattle.object_store.specs.Says.{Untouched, paged, told};
ghost use Rattle.object_store.specs.Uses.{Creates, as_entry, entries_in, entry_under, some_entry};

use crate::change::Change;
use crate::fault::ObjectFault;
use crate::store::ObjectStore;
use crate::work::check_page;
use object::{Key, Object};
use page::Entry;

// Whether there is a key, and it is of an entry.
fn is_entry(key: Option<Key>) -> bool
    ensures { result ≡ some_entry key }
{
    key.is_some_and(|key| key.part == 0)
}

/// How many files and directories the map has.
pub fn count_entries<S: ObjectStore>(store: &S) -> Result<usize, ObjectFault>
    requires { S.ObjectStore.whole store.now }
    ensures { result ≡ told (S.ObjectStore.shelf store.now) (entries_in (keys_of (S.ObjectStore.shelf store.now).objects)) }
{
    let mut entries = 0;
    // A chain would have to carry the refusal that each key may be.
    for index in 0..store.count()? {
        if is_entry(store.key(index)?) {
            entries += 1;
        }
    }
    Ok(entries)
}

// The entry that an object is.
fn as_entry(object: Option<Object>) -> Option<Entry>
    ensures { result ≡ as_entry object }
{
    match object {
        Some(Object::Entry(entry)) => Some(entry),
        _ => None,
    }
}

/// The entry of a file, or that there is none.
pub fn entry_of<S: ObjectStore>(
    store: &S,
    work: &mut [u8],
    file: u32,
) -> Result<Option<Entry>, ObjectFault>
    requires { S.ObjectStore.whole store.now }
    ensures answer { result ≡ paged (length work.old) (told (S.ObjectStore.shelf store.now) (entry_under (S.ObjectStore.shelf store.now).objects file)) }
    ensures buffer { Untouched (length work.old) work.old work.new }
{
    let object = store.get(work, &Key::entry(file))?;
    Ok(as_entry(object))
}

/// Makes a file or directory, and answers its number.
pub fn create<S: ObjectStore>(
    store: &mut S,
    work: &mut [u8],
    entry: Entry,
) -> Result<u32, ObjectFault>
    requires { S.ObjectStore.whole store.old }
    ensures says { Creates (length work.old) (S.ObjectStore.shelf store.old) entry result (S.ObjectStore.shelf store.new) }
    ensures whole { S.ObjectStore.whole store.new }
{
    check_page(work)?;
    let file = store.unused()?;
    let change = Change::Set(Key::entry(file), Object::Entry(entry));
    store.batch(work, &[change])?;
    Ok(file)
}
