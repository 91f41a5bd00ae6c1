// Which pages may be written.
ghost use Rattle.std.specs.Prelude.{◌≡◌};
ghost use Rattle.page.specs.Fits.{content_fits, entry_fits, file_fits, fits as page_fits, header_fits, length_fits};

use crate::fields::{Content, Entry, EntryKind, Header, Page};
use crate::layout::{CHUNK_LIMIT, GROUP_LIMIT, LENGTH_LIMIT};

impl Header {
    fn fits(&self) -> bool
        ensures { result ≡ header_fits self.now }
    {
        (1..=GROUP_LIMIT).contains(&self.size)
            && self.index < self.size
            && (1..=self.number).contains(&self.floor)
    }

    fn file_fits(&self) -> bool
        ensures { result ≡ file_fits self.now }
    {
        (1..=self.number).contains(&self.file)
    }
}

impl EntryKind {
    fn allows(&self, length: u16) -> bool
        ensures { result ≡ length_fits self.now length }
    {
        match self {
            EntryKind::File => length <= LENGTH_LIMIT,
            EntryKind::Directory => length == 0,
        }
    }
}

impl Entry {
    /// Whether its length and its name are in their range.
    pub fn fits(&self) -> bool
        ensures { result ≡ entry_fits self.now }
    {
        self.kind.allows(self.length) && self.name.fits()
    }
}

impl Content {
    fn fits(&self, header: &Header) -> bool
        ensures { result ≡ content_fits header.now self.now }
    {
        match self {
            Content::Note => header.file == 0,
            Content::Entry(entry) => header.file_fits() && entry.fits(),
            Content::Chunk(chunk) => header.file_fits() && chunk.index < CHUNK_LIMIT,
            Content::Gone => header.file_fits(),
        }
    }
}

impl Page {
    /// Whether every field is in its range, so that the page can be written.
    #[tactic(auto, unfolding(crate::specs::Fits::fits))]
    pub fn fits(&self) -> bool
        ensures { result ≡ page_fits self.now }
    {
        self.header.fits() && self.content.fits(&self.header)
    }
}
