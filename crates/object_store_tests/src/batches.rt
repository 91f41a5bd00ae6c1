// What batches leave, and which are refused.
use object::{Key, Object};
use object_store::{Change, Kept, ObjectFault, ObjectStore, TableStore, count_entries, create};
use page::{Entry, EntryKind, Name};
use std::test::Fail;

const CHUNK: Object = Object::Chunk([7; 224]);

const NOWHERE: Kept = Kept {
    key: Key { file: 0, part: 0 },
    object: CHUNK,
};

fn entry(name: &[u8]) -> Result<Entry, Fail> {
    let name = Name::new(name).ok_or("not a name")?;
    Ok(Entry {
        directory: 0,
        kind: EntryKind::File,
        length: 0,
        name,
    })
}

#[test]
fn full_exactly_past_the_limit(rt: HostRuntime) -> Result<(), Fail> {
    let mut places = [NOWHERE; 2];
    let mut work = [0; 256];
    let mut store = TableStore::new(&mut places);
    assert_eq!(rt; create(&mut store, &mut work, entry(b"a")?), Ok(1));
    assert_eq!(rt; create(&mut store, &mut work, entry(b"b")?), Ok(2));
    assert_eq!(rt;
        create(&mut store, &mut work, entry(b"c")?),
        Err(ObjectFault::Full)
    );
    let third = Change::Set(Key::entry(3), Object::Entry(entry(b"c")?));
    assert_eq!(rt;
        store.batch(&mut work, &[third, Change::Remove(1)]),
        Ok(()),
        "a batch is judged by what it leaves"
    );
    assert_eq!(rt; count_entries(&store), Ok(2));
    assert_eq!(rt; store.unused(), Ok(1));
    Ok(())
}

#[test]
fn unfit_batches_change_nothing(rt: HostRuntime) -> Result<(), Fail> {
    let mut places = [NOWHERE; 8];
    let mut work = [0; 256];
    let mut store = TableStore::new(&mut places);
    let file = Change::Set(Key::entry(1), Object::Entry(entry(b"a")?));
    let chunk = Change::Set(Key { file: 1, part: 1 }, CHUNK);
    let unfit = Err(ObjectFault::Unfit);
    assert_eq!(rt; store.batch(&mut work, &[]), unfit);
    assert_eq!(rt; store.batch(&mut work, &[file; 5]), unfit);
    assert_eq!(rt; store.batch(&mut work, &[chunk]), unfit, "no entry");
    assert_eq!(rt;
        store.batch(&mut work, &[Change::Remove(2)]),
        unfit,
        "unknown"
    );
    assert_eq!(rt;
        store.batch(&mut work, &[Change::Remove(1), file]),
        unfit,
        "set after removal"
    );
    assert_eq!(rt; store.count(), Ok(0));
    assert_eq!(rt; store.batch(&mut work, &[chunk, file]), Ok(()));
    assert_eq!(rt; store.count(), Ok(2));
    Ok(())
}

#[test]
fn a_short_working_page_is_refused(rt: HostRuntime) -> Result<(), Fail> {
    let mut places = [NOWHERE; 1];
    let mut work = [0x5a; 255];
    let mut store = TableStore::new(&mut places);
    assert_eq!(rt; store.format(&mut work), Err(ObjectFault::WorkPage));
    assert_eq!(rt; store.mount(&mut work), Err(ObjectFault::WorkPage));
    assert_eq!(rt;
        create(&mut store, &mut work, entry(b"a")?),
        Err(ObjectFault::WorkPage)
    );
    assert_eq!(rt; work[254], 0x5a);
    Ok(())
}
