// What the journal knows while mounted.
ghost use Rattle.std.specs.Prelude.{◌≡◌, ◌≤◌, length};
ghost use Rattle.planner.specs.State.{Sound};
ghost use Rattle.planner.specs.Slots.{listed};
ghost use Rattle.planner.specs.Shape.{shape, used_of, Keeps};

use crate::head::{Head, Phase};
use crate::slots::Slots;
use object::BLOCK_LIMIT;

/// Which page tells which key, the highest number in each block, the floor and the last number, and the block being
/// written. The tables are always sound, and a block is always free or can be made so.
#[derive(Drop)]
pub struct Tables {
    pub(crate) slots: Slots,
    /// As long as the largest chip wants it: there is no heap.
    pub(crate) high: [u32; BLOCK_LIMIT],
    /// The pages of a block.
    pub(crate) per: u8,
    pub(crate) blocks: u8,
    pub(crate) floor: u32,
    pub(crate) last: u32,
    pub(crate) head: Option<Head>,
    pub(crate) phase: Phase,
    ghost tall: { length high ≡ 16 },
    ghost slim: { per ≤ 16 },
    ghost small: { blocks ≤ 16 },
    ghost few: { length (listed slots) ≤ 208 },
    ghost within: { used_of per head ≤ per },
    ghost sound: { ∥ Sound (shape slots high per blocks floor last head) ∥₁ },
    ghost spare: { ∥ Keeps phase (shape slots high per blocks floor last head) ∥₁ },
}
