// Which page tells which key.

/// A page of the chip.
#[derive(Clone, Copy, Default)]
pub struct Place {
    pub block: u8,
    /// Which page of the block.
    pub index: u8,
}

/// A key, and the page that tells it with that page's number.
pub type Slot = object::Slot<Place>;
