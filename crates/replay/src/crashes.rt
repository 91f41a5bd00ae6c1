// What is told once power was lost in the middle of a write or an erase: each law is the contract of a function.
ghost use Rattle.replay.specs.Crashes.{Copy, FinishedGroup, ScratchErase, UnfinishedGroup};

/// A group that is not complete changes nothing that is told, also where its pages carry a higher floor
/// that no told key lies below.
pub fn unfinished_group_keeps()
    ensures { UnfinishedGroup }
{}

/// A complete group puts its pages into the map that is told, in order.
pub fn finished_group_puts()
    ensures { FinishedGroup }
{}

/// A copy, a group of one that says again what is told, changes nothing that is told; its floor may rise
/// to any number up to its own that no other told key lies below.
pub fn copy_keeps()
    ensures { Copy }
{}

/// An erase of a scratch block, torn or not, changes nothing that is told.
pub fn scratch_erase_keeps()
    ensures { ScratchErase }
{}
