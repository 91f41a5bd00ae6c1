// Why tables refuse.

/// Why no room is made.
#[derive(Clone, Copy, PartialEq, Eq, Debug)]
pub enum RoomFault {
    /// The group has not 1 to 4 pages.
    Size,
    /// Numbers are spent.
    Spent,
}

/// Why a batch is refused.
#[derive(Clone, Copy, PartialEq, Eq, Debug)]
pub enum BatchFault {
    /// It has not 1 to 4 pages.
    Size,
    /// Fewer than four numbers are left.
    Spent,
    /// No room was made for it.
    NoRoom,
    /// It would leave more keys than the limit.
    Full,
}
