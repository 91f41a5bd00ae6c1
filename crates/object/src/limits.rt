// How large a chip may be.

/// The fewest blocks of a chip.
pub const LEAST_BLOCKS: usize = 4;

/// The most blocks.
pub const BLOCK_LIMIT: usize = 16;

/// The blocks' worth of pages that keys leave to the journal.
pub const SPARE_BLOCKS: usize = 3;
