// What holds of listings: each law is the contract of a function.
ghost use Rattle.listing.specs.Laws.{OneListing};
ghost use Rattle.listing.specs.Worked.{WorkedListing};

/// A tree has one listing: every byte of it is determined by the entries.
pub fn one_listing()
    ensures { OneListing }
{}

/// A directory with a file in it is listed as two lines, given byte by byte.
pub fn worked_listing()
    ensures { WorkedListing }
{}
