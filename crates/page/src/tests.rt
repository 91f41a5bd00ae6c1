use crate::{
    Content, Entry, EntryKind, Header, Name, Page, PageFault, PageState, decode, encode,
    page_number, page_state,
};
use flash::PAGE_BYTES;
use std::test::Fail;

fn boot_log() -> Result<Entry, Fail> {
    let name = Name::new(b"boot.log").ok_or("a plain name is allowed")?;
    Ok(Entry {
        directory: 2,
        kind: EntryKind::File,
        length: 500,
        name,
    })
}

fn page_of(entry: Entry) -> Page {
    let header = Header {
        index: 1,
        size: 2,
        number: 9,
        floor: 3,
        file: 7,
    };
    Page {
        header,
        content: Content::Entry(entry),
    }
}

#[test]
fn an_entry_comes_back(rt: HostRuntime) -> Result<(), Fail> {
    let page = page_of(boot_log()?);
    let mut out = [0; PAGE_BYTES];
    assert_eq!(rt; encode(&page, &mut out), Ok(()));
    assert_eq!(rt; page_state(&out), PageState::Data);
    assert_eq!(rt; page_number(&out), 9);
    assert_eq!(rt; decode(&out), Ok(page));
    Ok(())
}

#[test]
fn a_risen_bit_is_seen(rt: HostRuntime) -> Result<(), Fail> {
    let mut out = [0; PAGE_BYTES];
    assert_eq!(rt; encode(&page_of(boot_log()?), &mut out), Ok(()));
    out[3] = 1;
    assert_eq!(rt; page_state(&out), PageState::Spoilt);
    assert_eq!(rt; decode(&out), Err(PageFault::NotData));
    Ok(())
}

#[test]
fn a_page_that_does_not_fit_is_not_written(rt: HostRuntime) -> Result<(), Fail> {
    let mut page = page_of(boot_log()?);
    page.header.index = page.header.size;
    let mut out = [0; PAGE_BYTES];
    assert_eq!(rt; encode(&page, &mut out), Err(PageFault::OutOfRange));
    assert_eq!(rt; out[2], 0);
    Ok(())
}
