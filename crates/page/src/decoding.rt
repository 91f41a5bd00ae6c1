// From the bytes of a page to what it says.
ghost use Rattle.std.specs.Prelude.{◌≡◌};
ghost use Rattle.std.specs.Option.{ok_or};
ghost use Rattle.page.specs.Bits.{field};
ghost use Rattle.page.specs.Decoded.{checked as checked_page, decoded};
ghost use Rattle.page.specs.declared.fields.PageFault.TheVariants.{OutOfRange};
ghost use Rattle.page.specs.Fields.{chunk_at, content_at, entry_at, header_at, kind_at, name_at};

use crate::code::is_data;
use crate::fields::{Chunk, Content, Entry, EntryKind, Header, Page, PageFault};
use crate::kinds::Kind;
use crate::layout::{
    CHUNK_AT, CHUNK_BYTES, CHUNK_INDEX, DIRECTORY, FILE, FLOOR, INDEX, IS_DIRECTORY, KIND, LENGTH,
    NAME_AT, NAME_BYTES, NAME_LENGTH, NUMBER, SIZE_LESS_1,
};
use crate::names::{Name, padded};
use flash::PAGE_BYTES;

/// The number that a data page has, for whoever looks at single pages.
pub fn page_number(page: &[u8; PAGE_BYTES]) -> u32
    ensures { result ≡ field page.now 24 32 }
{
    NUMBER.read(page)
}

fn header_at(page: &[u8; PAGE_BYTES]) -> Header
    ensures { result ≡ header_at page.now }
{
    Header {
        index: INDEX.read(page) as u8,
        size: SIZE_LESS_1.read(page) as u8 + 1,
        number: NUMBER.read(page),
        floor: FLOOR.read(page),
        file: FILE.read(page),
    }
}

// A length above 24 takes all 24 bytes here, and `fits` refuses it.
fn name_at(page: &[u8; PAGE_BYTES]) -> Name
    ensures { result ≡ name_at page.now }
{
    let len = NAME_LENGTH.read(page) as u8;
    let end = NAME_AT + NAME_BYTES.min(len as usize);
    Name {
        len,
        bytes: padded(&page[NAME_AT..end]),
    }
}

fn kind_at(page: &[u8; PAGE_BYTES]) -> EntryKind
    ensures { result ≡ kind_at page.now }
{
    if IS_DIRECTORY.read(page) == 1 {
        EntryKind::Directory
    } else {
        EntryKind::File
    }
}

fn entry_at(page: &[u8; PAGE_BYTES]) -> Entry
    ensures { result ≡ entry_at page.now }
{
    Entry {
        directory: DIRECTORY.read(page),
        kind: kind_at(page),
        length: LENGTH.read(page) as u16,
        name: name_at(page),
    }
}

fn chunk_at(page: &[u8; PAGE_BYTES]) -> Chunk
    ensures { result ≡ chunk_at page.now }
{
    let mut bytes = [0; CHUNK_BYTES];
    bytes.copy_from_slice(&page[CHUNK_AT..CHUNK_AT + CHUNK_BYTES]);
    Chunk {
        index: CHUNK_INDEX.read(page) as u8,
        bytes,
    }
}

fn content_at(page: &[u8; PAGE_BYTES]) -> Result<Content, PageFault>
    ensures { result ≡ ok_or (content_at page.now) OutOfRange }
{
    Ok(match Kind::try_from(KIND.read(page))? {
        Kind::Note => Content::Note,
        Kind::Entry => Content::Entry(entry_at(page)),
        Kind::Chunk => Content::Chunk(chunk_at(page)),
        Kind::Gone => Content::Gone,
    })
}

fn checked(page: Page) -> Result<Page, PageFault>
    ensures { result ≡ checked_page page }
{
    if page.fits() {
        Ok(page)
    } else {
        Err(PageFault::OutOfRange)
    }
}

/// What a page says, where its bytes are data and every field is in its range.
#[tactic(auto, unfolding(crate::specs::Decoded::decoded))]
pub fn decode(bytes: &[u8; PAGE_BYTES]) -> Result<Page, PageFault>
    ensures { result ≡ decoded bytes.now }
{
    if !is_data(bytes) {
        return Err(PageFault::NotData);
    }
    // The content first: a page of no kind has no header worth reading.
    let content = content_at(bytes)?;
    checked(Page {
        header: header_at(bytes),
        content,
    })
}
