// A flash by what it means: a chip that no code holds, and what each call makes of it.
ghost use Rattle.std.specs.Prelude.{◌≡◌, ℕ, true, length};
ghost use Rattle.flash.specs.Chip.{Chip, Formed, powered};
ghost use Rattle.flash.specs.Says.{Erases, Programs, Reads};

use crate::fault::FlashFault;

/// Bytes in a page.
pub const PAGE_BYTES: usize = 256;

/// Blocks that a flash may have.
pub const MOST_BLOCKS: usize = 1000;

/// A flash that can be read.
pub trait ReadFlash {
    /// Pages in a block. No clause can cite it where the type has a lifetime, so `per_block` is its value and `block_pages` answers it.
    const PAGES_PER_BLOCK: usize;

    ghost per_block: { ℕ };

    ghost sixteen: { per_block ≡ 16 };

    ghost chip: { Self → Chip };

    ghost formed: { (x : Self) → Formed per_block (chip x) };

    fn block_pages() -> usize
        ensures { result ≡ per_block };

    /// How many blocks there are, with power on or off.
    fn blocks(&self) -> usize
        ensures { result ≡ (chip self.now).blocks };

    fn is_on(&self) -> bool
        ensures { result ≡ (chip self.now).on };

    /// Copies one page out: its 256 bytes, or as many as `out` has room for. A refusal leaves `out` as it was.
    fn read(&self, page: usize, out: &mut [u8]) -> Result<(), FlashFault>
        ensures { Reads (chip self.now) page out.old result out.new };
}

/// A flash that can also be changed.
pub trait Flash: ReadFlash {
    /// Each bit of the page ends as old AND given, unless power goes.
    fn program(&mut self, page: usize, bytes: &[u8; PAGE_BYTES]) -> Result<(), FlashFault>
        ensures says { Programs (Self.chip self.old) page bytes.now result (Self.chip self.new) };

    /// Each bit of the block ends as 1, unless power goes.
    fn erase(&mut self, block: usize) -> Result<(), FlashFault>
        ensures says { Erases (Self.chip self.old) block result (Self.chip self.new) };

    /// Always succeeds, and alters no bit.
    fn power_up(&mut self)
        ensures says { Self.chip self.new ≡ powered (Self.chip self.old) true };
}

/// How many pages the flash has.
pub fn page_count<F: ReadFlash>(flash: &F) -> usize
    ensures { result ≡ length (F.chip flash.now).pages }
{
    F::block_pages() * flash.blocks()
}
