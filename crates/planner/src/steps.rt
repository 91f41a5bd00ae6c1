// The steps that make room.

/// What comes next to make room for a group.
#[derive(Clone, Copy)]
pub enum Step {
    /// There is room.
    Ready,
    /// Erase the block and write it from its first page on.
    Open { block: u8 },
    /// Copy the page that tells the key of the slot to the head's next page, with this floor.
    Copy { slot: usize, floor: u32 },
    /// No number is left to make room with.
    Spent,
}
