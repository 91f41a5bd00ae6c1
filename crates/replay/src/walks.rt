// How what is shown is found: each law is the contract of a function.
ghost use Rattle.replay.specs.Crashes.{NewestTells, Walk};

/// What is shown under a key is what the newest counted page that speaks to its slot says.
pub fn newest_tells()
    ensures { NewestTells }
{}

/// A walk over the counted pages by rising number, from nothing, ends with what is shown.
pub fn walk_shows()
    ensures { Walk }
{}
