// How large a chip may be, and how much it holds.
ghost use Rattle.std.specs.Prelude.{◌≡◌, ◌≤◌, Decides};
ghost use Rattle.planner.specs.Formats.{Sizes};
ghost use Rattle.planner.specs.State.{limit};

use crate::batch::BATCH_PAGES;
use object::{BLOCK_LIMIT, LEAST_BLOCKS, SPARE_BLOCKS};

/// The fewest blocks of a chip, and the fewest pages of a block.
const FEWEST: u8 = LEAST_BLOCKS as u8;

/// The most of either.
const MOST: u8 = BLOCK_LIMIT as u8;

/// The keys of the largest chip, and a batch beyond.
pub(crate) const MOST_SLOTS: usize = MOST as usize * (BLOCK_LIMIT - SPARE_BLOCKS) + BATCH_PAGES;

// Whether a chip of such blocks and pages is one of ours.
pub(crate) fn are_sizes(per_block: u8, blocks: u8) -> bool
    ensures { Decides result (Sizes per_block blocks) }
{
    let sizes = FEWEST..=MOST;
    sizes.contains(&per_block) && sizes.contains(&blocks)
}

// How many keys there may be on it. Replay's `key_limit` asks a flash; this counts in bytes, for any number of pages in a
// block.
pub(crate) fn key_limit(per_block: u8, blocks: u8) -> usize
    ensures { result ≡ limit per_block blocks }
{
    per_block as usize * (blocks as usize).saturating_sub(SPARE_BLOCKS)
}
