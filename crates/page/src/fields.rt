// What a data page holds.
use crate::layout::CHUNK_BYTES;
use crate::names::Name;

/// What every data page begins with.
#[derive(Clone, Copy, PartialEq, Eq, Debug, Default)]
pub struct Header {
    /// The page's place in its group, from 0.
    pub index: u8,
    /// The pages of the group, 1 to 4.
    pub size: u8,
    /// 1 or more, and higher in each page that is written.
    pub number: u32,
    /// The pages numbered below this no longer count.
    pub floor: u32,
    /// The file that the page speaks of; 0 in a note, as the layout has it.
    pub file: u32,
}

/// What an entry names.
#[derive(Clone, Copy, PartialEq, Eq, Debug)]
pub enum EntryKind {
    File,
    Directory,
}

/// What a file or a directory is called, and where it stands.
#[derive(Clone, Copy, PartialEq, Eq, Debug)]
pub struct Entry {
    /// The file number of the directory that it stands in; 0 is the root, as the layout has it.
    pub directory: u32,
    pub kind: EntryKind,
    /// In bytes; 0 for a directory.
    pub length: u16,
    pub name: Name,
}

/// A part of a file's bytes.
#[derive(Clone, Copy, PartialEq, Eq, Debug)]
pub struct Chunk {
    /// The chunk's place in its file, 0 to 31.
    pub index: u8,
    pub bytes: [u8; CHUNK_BYTES],
}

/// What a page says of its file.
#[derive(Clone, Copy, PartialEq, Eq, Debug)]
pub enum Content {
    /// Nothing: the page only carries a number and a floor.
    Note,
    Entry(Entry),
    Chunk(Chunk),
    /// The file is no more.
    Gone,
}

/// A data page.
#[derive(Clone, Copy, PartialEq, Eq, Debug)]
pub struct Page {
    pub header: Header,
    pub content: Content,
}

/// Why bytes are no page, or a page cannot be written.
#[derive(Clone, Copy, PartialEq, Eq, Debug)]
pub enum PageFault {
    /// The bytes are erased or spoilt.
    NotData,
    /// A field is out of its range, or a name is not allowed.
    OutOfRange,
}
