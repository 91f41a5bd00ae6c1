// What was read of a chip.
ghost use Rattle.std.specs.Prelude.{◌≡◌, length};

use crate::slots::Slots;
use object::BLOCK_LIMIT;

/// What a scan found on a chip: the page that tells each key, the highest number in each block (0 where there is none, or
/// where the block is looked past), the floor, and the highest number of all.
#[derive(Drop)]
pub struct Scanned {
    pub per_block: u8,
    pub blocks: u8,
    pub slots: Slots,
    /// As long as the largest chip wants it: there is no heap. 0 is no page's number, so it needs no `Option`.
    pub high: [u32; BLOCK_LIMIT],
    pub floor: u32,
    pub last: u32,
    ghost tall: { length high ≡ 16 },
}
