// What replay does not depend on: each law is the contract of a function.
ghost use Rattle.replay.specs.Laws.{CutShortGroupDoesNotCount, FreeBlockTellsNothing, OnlyDataTells};

/// Replay depends on nothing but the data pages: a page that is no data may come, go or change.
pub fn only_data_tells()
    ensures { OnlyDataTells }
{}

/// Taking away any pages of a block whose pages all lie below the floor changes nothing that is told.
pub fn free_block_tells_nothing()
    ensures { FreeBlockTellsNothing }
{}

/// Of page 50 with index 0 in a group of two and page 51 alone in its group, only page 51 counts.
pub fn cut_short_group_does_not_count()
    ensures { CutShortGroupDoesNotCount }
{}
