// What the tables tell.
ghost use Rattle.std.specs.Prelude.{◌≡◌};

use crate::head::Head;
use crate::slots::Slots;
use crate::tables::Tables;

impl Tables {
    /// Which page tells which key.
    pub fn slots(&self) -> &Slots
        ensures { result.now ≡ self.now.slots }
    {
        &self.slots
    }

    /// The block being written and how many of its pages are used: the next page goes to its page `used`.
    pub fn head(&self) -> Option<Head>
        ensures { result ≡ self.now.head }
    {
        self.head
    }

    /// The highest number so far.
    pub fn last(&self) -> u32
        ensures { result ≡ self.now.last }
    {
        self.last
    }

    /// The floor as it stands.
    pub fn floor(&self) -> u32
        ensures { result ≡ self.now.floor }
    {
        self.floor
    }
}
