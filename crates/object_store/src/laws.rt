// What a map tells after a change: each law is the contract of a function.
ghost use Rattle.object_store.specs.Laws.{BatchHasKeys, FitBatchKeepsSound, FoundFits, RemovalIsTold, SameToldSameMap, SetIsTold};

/// A key that is set tells its object, and every other key what it told before.
pub fn set_is_told()
    ensures { SetIsTold }
{}

/// A file that is removed has no keys, and every other key tells what it told before.
pub fn removal_is_told()
    ensures { RemovalIsTold }
{}

/// What stands under a key is an object that its part may hold.
pub fn found_fits()
    ensures { FoundFits }
{}

/// The keys after a batch are those of before and those that it sets, but for the files that it removes.
pub fn batch_has_keys()
    ensures { BatchHasKeys }
{}

/// A fit batch keeps a map sound.
pub fn fit_batch_keeps_sound()
    ensures { FitBatchKeepsSound }
{}

/// Maps that tell the same are the same list.
pub fn same_told_same_map()
    ensures { SameToldSameMap }
{}
