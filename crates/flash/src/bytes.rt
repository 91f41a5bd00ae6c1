// Bytes in memory as pages and blocks, for the image and the dump.
ghost use Rattle.std.specs.Prelude.{◌≡◌, ◌+◌, ◌*◌, ◌≤◌, length, take, drop, replicate};
ghost use Rattle.flash.specs.Chip.{cleared, filled};
ghost use Rattle.flash.specs.Image.{image_blocks, image_chip, octets};
ghost use Rattle.flash.specs.Says.{Reads};

use crate::fault::{FlashFault, admit};
use crate::traits::{MOST_BLOCKS, PAGE_BYTES};

pub const IMAGE_PAGES_PER_BLOCK: usize = 16;

/// Bytes in a block of an image or a dump.
pub const IMAGE_BLOCK_BYTES: usize = IMAGE_PAGES_PER_BLOCK * PAGE_BYTES;

// How many blocks so many bytes make.
pub(crate) fn blocks_in(bytes: &[u8]) -> usize
    ensures { result ≡ image_blocks bytes.now }
{
    (bytes.len() / IMAGE_BLOCK_BYTES).min(MOST_BLOCKS)
}

// Reads a page of the chip that the bytes are, with its power on or off.
pub(crate) fn read_page(
    bytes: &[u8],
    on: bool,
    page: usize,
    out: &mut [u8],
) -> Result<(), FlashFault>
    ensures { Reads (image_chip bytes.now on) page out.old result out.new }
{
    admit(on, page < IMAGE_PAGES_PER_BLOCK * blocks_in(bytes))?;
    copy_page_out(bytes, page, out);
    Ok(())
}

// Copies the page, as far as `out` has room, out of the bytes that hold it.
fn copy_page_out(bytes: &[u8], page: usize, out: &mut [u8])
    requires { 256 * page + 256 ≤ length bytes.now }
    ensures { out.new ≡ filled out.old (take 256 (drop (256 * page) (octets bytes.now))) }
{
    let at = page * PAGE_BYTES;
    let len = PAGE_BYTES.min(out.len());
    out[..len].copy_from_slice(&bytes[at..at + len]);
}

// Each bit of the cells ends as old AND given.
pub(crate) fn clear_bits(cells: &mut [u8], given: &[u8; PAGE_BYTES])
    requires { length cells.old ≤ 256 }
    ensures { cells.new ≡ cleared cells.old given.now }
{
    // No `zip`: a proof knows what a loop over `iter_mut` wrote, also an enumerated one, and nothing of a zipped one.
    for (k, cell) in cells.iter_mut().enumerate() {
        *cell &= given[k];
    }
}

// Each bit of the cells ends as 1.
pub(crate) fn set_bits(cells: &mut [u8])
    ensures { cells.new ≡ replicate (length cells.old) 255 }
{
    cells.fill(0xff);
}
