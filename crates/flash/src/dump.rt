// Bytes held for reading, as a flash that is only read. Its power is always on.
ghost use Rattle.std.specs.Prelude.{◌≡◌, true, refl};
ghost use Rattle.flash.specs.Cuts.{image_formed};
ghost use Rattle.flash.specs.Image.{image_chip};

use crate::bytes::{IMAGE_PAGES_PER_BLOCK, blocks_in, read_page};
use crate::fault::FlashFault;
use crate::traits::ReadFlash;

#[derive(Clone, Copy)]
pub struct DumpFlash<'a> {
    bytes: &'a [u8],
}

impl<'a> DumpFlash<'a> {
    pub fn new(bytes: &'a [u8]) -> DumpFlash<'a>
        ensures { result.bytes.now ≡ bytes.now }
    {
        DumpFlash { bytes }
    }
}

impl ReadFlash for DumpFlash<'_> {
    const PAGES_PER_BLOCK: usize = IMAGE_PAGES_PER_BLOCK;

    ghost per_block = { 16 };

    ghost sixteen = { refl };

    ghost chip = { λ s. image_chip s.bytes.now true };

    ghost formed = { λ s. image_formed s.bytes.now true };

    fn block_pages() -> usize
        ensures { result ≡ 16 }
    {
        Self::PAGES_PER_BLOCK
    }

    fn blocks(&self) -> usize {
        blocks_in(self.bytes)
    }

    fn is_on(&self) -> bool {
        true
    }

    fn read(&self, page: usize, out: &mut [u8]) -> Result<(), FlashFault> {
        read_page(self.bytes, true, page, out)
    }
}
