// What each data page is remembered by, in rising order of numbers.
ghost use Rattle.std.specs.Prelude.{◌≡◌, true};
ghost use Rattle.page.specs.Fits.{fits as page_fits};
ghost use Rattle.replay.specs.Seen.{says_by};

use lookup::Ranked;
use object::Key;
use page::{Content, Header, Page};

/// What a page says to a slot. (Not planner's `Says`: there a page removes all keys of a file, here it speaks to one slot.)
#[derive(Clone, Copy, PartialEq, Eq, Debug)]
pub enum Says {
    Sets(Key),
    Removes(Key),
}

/// A data page, without the bytes that it holds.
#[derive(Clone, Copy, PartialEq, Eq, Debug, Default)]
pub struct Seen {
    pub place: usize,
    pub header: Header,
    pub says: Option<Says>,
}

impl Ranked for Seen {
    ghost ranked = { λ s. s.header.number };

    fn rank(&self) -> u64 {
        self.header.number as u64
    }
}

// What a page says, by its kind.
pub(crate) fn says_of(page: &Page) -> Option<Says>
    requires { page_fits page.now ≡ true }
    ensures { result ≡ says_by page.now.header.file page.now.content }
{
    let file = page.header.file;
    match &page.content {
        Content::Note => None,
        Content::Entry(_) => Some(Says::Sets(Key::entry(file))),
        Content::Chunk(chunk) => Some(Says::Sets(Key {
            file,
            part: chunk.index + 1,
        })),
        Content::Gone => Some(Says::Removes(Key::entry(file))),
    }
}
