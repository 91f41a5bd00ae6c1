// The highest number in each block.
ghost use Rattle.std.specs.Prelude.{ℕ, ◌/◌, ◌<◌, length, slice_index_or};
ghost use Rattle.replay.specs.Tops.{RisingNumbers, Tops};
ghost use Rattle.replay.specs.declared.seen.Seen.{Seen as Remembered};

use crate::seen::Seen;
use crate::tables::BLOCK_LIMIT;

// The highest number of each block's remembered pages, 0 where it has none.
pub(crate) fn block_tops(seen: &[Seen], per_block: usize) -> [u32; BLOCK_LIMIT]
    requires some { 0 < per_block }
    requires inside { (i : ℕ) (d : Remembered) → i < length seen.now → (slice_index_or seen.now i d).place / per_block < 16 }
    requires rising { RisingNumbers seen.now }
    ensures { Tops seen.now per_block result }
{
    let mut tops = [0; BLOCK_LIMIT];
    for page in seen {
        tops[page.place / per_block] = page.header.number;
    }
    tops
}
