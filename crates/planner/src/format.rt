// The tables after a format.
ghost use Rattle.planner.specs.Formats.{Formats};

use crate::head::{Head, Phase};
use crate::sizes::are_sizes;
use crate::slots::Slots;
use crate::tables::Tables;
use object::BLOCK_LIMIT;

impl Tables {
    /// The tables after a format, which leaves one page numbered 1 that tells nothing. None where the chip has not 4 to 16 blocks
    /// of 4 to 16 pages.
    pub fn new(per_block: u8, blocks: u8) -> Option<Tables>
        ensures { Formats per_block blocks result }
    {
        if !are_sizes(per_block, blocks) {
            return None;
        }
        let mut high = [0; BLOCK_LIMIT];
        high[0] = 1;
        Some(Tables {
            slots: Slots::new(),
            high,
            per: per_block,
            blocks,
            floor: 1,
            last: 1,
            head: Some(Head { block: 0, used: 1 }),
            phase: Phase::AtRest,
        })
    }
}
