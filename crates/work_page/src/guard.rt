// Guards over lent memory.
ghost use Rattle.work_page.specs.Lent.{ones};
ghost use Rattle.std.specs.Prelude.{length, ◌≡◌};

/// Lent memory that is filled with ones when the guard ends.
pub struct Guard<'a>(pub &'a mut [u8]);

impl Drop for Guard<'_> {
    fn drop(self)
        ensures { self.exit.0.now ≡ ones (length self.entry.0.now) }
    {
        self.0.fill(0xff);
        let Guard(_) = self;
    }
}

/// The same of a whole working page.
pub struct PageGuard<'a>(pub &'a mut [u8; 256]);

impl Drop for PageGuard<'_> {
    fn drop(self)
        ensures { self.exit.0.now ≡ ones 256 }
    {
        let PageGuard(page) = self;
        drop(Guard(page));
    }
}
