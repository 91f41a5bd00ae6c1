use crate::{Tree, TreeFault};
use page::{Entry, EntryKind, Name};
use std::test::Fail;

fn entry(directory: u32, kind: EntryKind, name: &[u8]) -> Result<Entry, Fail> {
    let name = Name::new(name).ok_or("a plain name is allowed")?;
    Ok(Entry {
        directory,
        kind,
        length: 0,
        name,
    })
}

#[test]
fn entries_come_by_file_number(rt: HostRuntime) -> Result<(), Fail> {
    let mut tree = Tree::new();
    assert_eq!(rt; tree.add(9, entry(4, EntryKind::File, b"arc")?), Ok(()));
    assert_eq!(rt;
        tree.add(4, entry(0, EntryKind::Directory, b"cal")?),
        Ok(())
    );
    let nodes = tree.nodes();
    assert!(rt; nodes.len() == 2);
    assert_eq!(rt; nodes[0].file, 4);
    assert_eq!(rt; nodes[1].file, 9);
    assert_eq!(rt; tree.fault(), None);
    Ok(())
}

#[test]
fn a_file_holds_no_entry(rt: HostRuntime) -> Result<(), Fail> {
    let mut tree = Tree::new();
    assert_eq!(rt; tree.add(4, entry(0, EntryKind::File, b"cal")?), Ok(()));
    assert_eq!(rt; tree.add(9, entry(4, EntryKind::File, b"arc")?), Ok(()));
    assert_eq!(rt; tree.fault(), Some(TreeFault::Unreached));
    Ok(())
}

#[test]
fn a_file_and_a_directory_share_no_name(rt: HostRuntime) -> Result<(), Fail> {
    let mut tree = Tree::new();
    assert_eq!(rt; tree.add(4, entry(0, EntryKind::File, b"cal")?), Ok(()));
    assert_eq!(rt;
        tree.add(9, entry(0, EntryKind::Directory, b"cal")?),
        Ok(())
    );
    assert_eq!(rt; tree.fault(), Some(TreeFault::Namesakes));
    Ok(())
}
