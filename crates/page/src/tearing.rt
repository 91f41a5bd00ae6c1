// What power that goes leaves of data pages, stated over the meaning of a flash.
ghost use Rattle.page.specs.Tearing.{TornEraseAddsNone, TornProgramAddsNone};

/// A program onto an erased page that loses power ends as the given page or as no data, and touches no other page.
pub fn torn_program_adds_no_other_page()
    ensures { TornProgramAddsNone }
{}

/// An erase that loses power leaves each page of its block as it was or as no data, and touches no other page.
pub fn torn_erase_only_takes_pages_away()
    ensures { TornEraseAddsNone }
{}
