// The block being written.

/// The block being written, and how many of its pages are used.
#[derive(Clone, Copy)]
pub struct Head {
    pub block: u8,
    pub used: u8,
}

/// Whether room is being made. (No `Option` of a number, which is no plainer: both states are named in what is proved, and
/// no code reads `since`.)
#[derive(Clone, Copy)]
pub enum Phase {
    AtRest,
    /// Since the page with this number was the last one.
    MakingRoom { since: u32 },
}
