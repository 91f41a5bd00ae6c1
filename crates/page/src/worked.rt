// Pages that are worked out by hand.
ghost use Rattle.page.specs.Worked.{WorkedPages};

/// The definitions give the pages that were worked out by hand.
pub fn worked_pages()
    ensures { WorkedPages }
{}
