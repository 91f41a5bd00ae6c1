// What a scan finds.
ghost use Rattle.std.specs.Prelude.{◌≡◌, length};

use crate::slot::Slot;
use lookup::Table;
use tree::Tree;

/// The most blocks of a chip that is shown.
pub const BLOCK_LIMIT: usize = object::BLOCK_LIMIT;

/// The most pages of such a chip.
pub const PAGE_LIMIT: usize = 256;

/// The tables of a chip.
#[derive(Drop)]
pub struct Scan {
    pub(crate) slots: Table<Slot, PAGE_LIMIT>,
    pub(crate) tops: [u32; BLOCK_LIMIT],
    /// The floor of the page with the highest number.
    pub floor: u32,
    /// The highest number.
    pub highest: u32,
    /// The entries.
    pub tree: Tree,
    ghost wide: { length tops ≡ 16 },
}
