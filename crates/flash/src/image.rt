// A flash in the caller's bytes, whose power goes where its fuse says.
ghost use Rattle.std.specs.Prelude.{◌≡◌, true, false, if◌then◌else◌, Ok, Err, refl};
ghost use Rattle.flash.specs.Chip.{powered};
ghost use Rattle.flash.specs.Cuts.{image_formed};
ghost use Rattle.flash.specs.Fuses.{blows_at, burnt_of};
ghost use Rattle.flash.specs.Image.{image_chip};
ghost use Rattle.flash.specs.ImageCalls.{ErasesImage, ProgramsImage, view};
ghost use Rattle.flash.specs.Says.{Erases, Programs};

use crate::bytes::{
    IMAGE_BLOCK_BYTES, IMAGE_PAGES_PER_BLOCK, blocks_in, clear_bits, read_page, set_bits,
};
use crate::fault::{FlashFault, admit};
use crate::fuse::Fuse;
use crate::traits::{Flash, PAGE_BYTES, ReadFlash};

/// One block to each 4,096 bytes, up to 1,000; the bytes past the last block are never touched.
/// Each call keeps the reference that was lent (`lent`), so the lender knows what its bytes hold once the flash is gone.
#[derive(Drop)]
pub struct ImageFlash<'a> {
    bytes: &'a mut [u8],
    on: bool,
    fuse: Fuse,
}

impl<'a> ImageFlash<'a> {
    pub fn new(bytes: &'a mut [u8], fuse: Fuse) -> ImageFlash<'a>
        ensures bytes { result.bytes.now ≡ bytes.old }
        ensures power { result.on ≡ true }
        ensures fuse { result.fuse ≡ fuse }
        ensures lent { result.bytes.ghost_name ≡ bytes.entry.ghost_name }
    {
        ImageFlash {
            bytes,
            on: true,
            fuse,
        }
    }

    pub fn bytes(&self) -> &[u8]
        ensures { result.now ≡ self.now.bytes.now }
    {
        self.bytes
    }

    pub fn set_fuse(&mut self, fuse: Fuse)
        ensures fuse { self.new.fuse ≡ fuse }
        ensures same { (self.new.bytes.now ≡ self.old.bytes.now) × (self.new.on ≡ self.old.on) }
        ensures lent { self.new.bytes.ghost_name ≡ self.old.bytes.ghost_name }
    {
        self.fuse = fuse;
    }

    // Ends a program or erase: the fuse burns down, and where it blows power is off and `cut` says so.
    fn burn(&mut self, cut: FlashFault) -> Result<(), FlashFault>
        ensures answer { result ≡ (if blows_at self.old.fuse then Err cut else Ok tt) }
        ensures power { self.new.on ≡ (if blows_at self.old.fuse then false else self.old.on) }
        ensures fuse { self.new.fuse ≡ burnt_of self.old.fuse }
        ensures bytes { self.new.bytes.now ≡ self.old.bytes.now }
        ensures lent { self.new.bytes.ghost_name ≡ self.old.bytes.ghost_name }
    {
        let blows = self.fuse.blows();
        self.fuse = self.fuse.burnt();
        if blows {
            self.on = false;
            Err(cut)
        } else {
            Ok(())
        }
    }
}

impl ReadFlash for ImageFlash<'_> {
    const PAGES_PER_BLOCK: usize = IMAGE_PAGES_PER_BLOCK;

    ghost per_block = { 16 };

    ghost sixteen = { refl };

    ghost chip = { λ s. image_chip s.bytes.now s.on };

    ghost formed = { λ s. image_formed s.bytes.now s.on };

    fn block_pages() -> usize
        ensures { result ≡ 16 }
    {
        Self::PAGES_PER_BLOCK
    }

    fn blocks(&self) -> usize {
        blocks_in(self.bytes)
    }

    fn is_on(&self) -> bool {
        self.on
    }

    fn read(&self, page: usize, out: &mut [u8]) -> Result<(), FlashFault> {
        read_page(self.bytes, self.on, page, out)
    }
}

impl Flash for ImageFlash<'_> {
    fn program(&mut self, page: usize, bytes: &[u8; PAGE_BYTES]) -> Result<(), FlashFault>
        ensures says { Programs (⟦<Self as ReadFlash>⟧.chip self.old) page bytes.now result (⟦<Self as ReadFlash>⟧.chip self.new) }
        ensures exact { ProgramsImage (view self.old) page bytes.now result (view self.new) }
        ensures lent { self.new.bytes.ghost_name ≡ self.old.bytes.ghost_name }
    {
        admit(self.on, page < Self::PAGES_PER_BLOCK * self.blocks())?;
        let at = page * PAGE_BYTES;
        let reach = self.fuse.reach(PAGE_BYTES);
        clear_bits(&mut self.bytes[at..at + reach], bytes);
        self.burn(FlashFault::Program { page })
    }

    fn erase(&mut self, block: usize) -> Result<(), FlashFault>
        ensures says { Erases (⟦<Self as ReadFlash>⟧.chip self.old) block result (⟦<Self as ReadFlash>⟧.chip self.new) }
        ensures exact { ErasesImage (view self.old) block result (view self.new) }
        ensures lent { self.new.bytes.ghost_name ≡ self.old.bytes.ghost_name }
    {
        admit(self.on, block < self.blocks())?;
        let at = block * IMAGE_BLOCK_BYTES;
        let reach = self.fuse.reach(IMAGE_BLOCK_BYTES);
        set_bits(&mut self.bytes[at..at + reach]);
        self.burn(FlashFault::Erase { block })
    }

    fn power_up(&mut self)
        ensures says { ⟦<Self as ReadFlash>⟧.chip self.new ≡ powered (⟦<Self as ReadFlash>⟧.chip self.old) true }
        ensures same { (self.new.bytes.now ≡ self.old.bytes.now) × (self.new.fuse ≡ self.old.fuse) }
        ensures lent { self.new.bytes.ghost_name ≡ self.old.bytes.ghost_name }
    {
        self.on = true;
    }
}
