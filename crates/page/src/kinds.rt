// The kinds of pages, by the number that stands on them.
ghost use Rattle.std.specs.Prelude.{◌≡◌, ◌<◌};
ghost use Rattle.page.specs.Encoded.{kind_number};
ghost use Rattle.page.specs.Kinds.{kind_of, number_of};

use crate::fields::{Content, PageFault};

/// What a page says of its file, without its fields.
#[derive(Clone, Copy, PartialEq, Eq, Debug)]
pub enum Kind {
    Note = 0,
    Entry = 1,
    Chunk = 2,
    Gone = 3,
}

impl Kind {
    // As it stands on the page.
    pub(crate) fn number(self) -> u8
        ensures value { result ≡ number_of self }
        ensures bound { result < 4 }
    {
        self as u8
    }
}

impl TryFrom<u32> for Kind {
    type Error = PageFault;

    ghost try_from_gives = { λ n r. r ≡ kind_of n };

    fn try_from(number: u32) -> Result<Kind, PageFault> {
        match number {
            0 => Ok(Kind::Note),
            1 => Ok(Kind::Entry),
            2 => Ok(Kind::Chunk),
            3 => Ok(Kind::Gone),
            _ => Err(PageFault::OutOfRange),
        }
    }
}

impl Content {
    pub(crate) fn kind(&self) -> Kind
        ensures { number_of result ≡ kind_number self.now }
    {
        match self {
            Content::Note => Kind::Note,
            Content::Entry(_) => Kind::Entry,
            Content::Chunk(_) => Kind::Chunk,
            Content::Gone => Kind::Gone,
        }
    }
}
