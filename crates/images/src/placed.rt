// A page of an example, and where and how it stands on the chip.
ghost use Rattle.std.specs.Prelude.{◌≡◌, Some};
ghost use Rattle.page.specs.declared.fields.Content.TheVariants.{Gone};
ghost use Rattle.page.specs.declared.fields.EntryKind.TheVariants as entry_kind;
ghost use Rattle.images.specs.Pages.{chunk_of, chunk_text, entry_of, floored, grouped, mannered, note_at, saying};
ghost use Rattle.images.specs.declared.placed.Manner.TheVariants.{Altered, Torn};

use page::{CHUNK_BYTES, Chunk, Content, Entry, EntryKind, Header, Name};

/// What happens to the bytes of a page on their way to the chip.
#[derive(Clone, Copy, PartialEq, Eq, Debug)]
pub enum Manner {
    /// Nothing.
    Whole,
    /// Power goes once so many of them are programmed.
    Torn { leading: usize },
    /// From `at` on, `count` of them are `byte` instead, and the zero count is counted again.
    Altered { at: usize, count: usize, byte: u8 },
}

#[derive(Clone, Copy, PartialEq, Eq, Debug)]
pub struct Placed {
    /// The page of the chip.
    pub place: usize,
    pub header: Header,
    /// None where it has a name that is not allowed; such a page is not written.
    pub content: Option<Content>,
    pub manner: Manner,
}

/// A note of its own, whose floor lets every page count.
pub fn at(place: usize, number: u32) -> Placed
    ensures { result ≡ note_at place number }
{
    Placed {
        place,
        header: Header {
            index: 0,
            size: 1,
            number,
            floor: 1,
            file: 0,
        },
        content: Some(Content::Note),
        manner: Manner::Whole,
    }
}

impl Placed {
    pub fn floor(mut self, floor: u32) -> Placed
        ensures { result ≡ floored self floor }
    {
        self.header.floor = floor;
        self
    }

    /// One page of a group.
    pub fn group(mut self, index: u8, size: u8) -> Placed
        ensures { result ≡ grouped self index size }
    {
        self.header.index = index;
        self.header.size = size;
        self
    }

    fn says(mut self, file: u32, content: Option<Content>) -> Placed
        ensures { result ≡ saying self file content }
    {
        self.header.file = file;
        self.content = content;
        self
    }

    pub fn directory(self, file: u32, within: u32, name: &[u8]) -> Placed
        ensures { result ≡ saying self file (entry_of within entry_kind.Directory 0 name.now) }
    {
        self.says(file, entry(within, EntryKind::Directory, 0, name))
    }

    pub fn file(self, file: u32, within: u32, name: &[u8], length: u16) -> Placed
        ensures { result ≡ saying self file (entry_of within entry_kind.File length name.now) }
    {
        self.says(file, entry(within, EntryKind::File, length, name))
    }

    /// A chunk that begins with the text, as far as there is room; zeros follow it.
    pub fn chunk(self, file: u32, index: u8, text: &[u8]) -> Placed
        ensures { result ≡ saying self file (Some (chunk_of index text.now)) }
    {
        let bytes = chunk_bytes(text);
        self.says(file, Some(Content::Chunk(Chunk { index, bytes })))
    }

    pub fn gone(self, file: u32) -> Placed
        ensures { result ≡ saying self file (Some Gone) }
    {
        self.says(file, Some(Content::Gone))
    }

    pub fn torn(mut self, leading: usize) -> Placed
        ensures { result ≡ mannered self (Torn leading) }
    {
        self.manner = Manner::Torn { leading };
        self
    }

    pub fn altered(mut self, at: usize, count: usize, byte: u8) -> Placed
        ensures { result ≡ mannered self (Altered at count byte) }
    {
        self.manner = Manner::Altered { at, count, byte };
        self
    }
}

fn entry(directory: u32, kind: EntryKind, length: u16, name: &[u8]) -> Option<Content>
    ensures { result ≡ entry_of directory kind length name.now }
{
    Name::new(name).map(|name| {
        Content::Entry(Entry {
            directory,
            kind,
            length,
            name,
        })
    })
}

fn chunk_bytes(text: &[u8]) -> [u8; CHUNK_BYTES]
    ensures { result ≡ chunk_text text.now }
{
    let mut bytes = [0; CHUNK_BYTES];
    let len = CHUNK_BYTES.min(text.len());
    bytes[..len].copy_from_slice(&text[..len]);
    bytes
}
