// When the power of an image goes.
ghost use Rattle.std.specs.Prelude.{◌≡◌};
ghost use Rattle.flash.specs.Fuses.{blows_at, burnt_of, reach_of};

// Not an `Option`: what a fuse does in either state are its methods, and an `Option` can have none of ours.
#[derive(Clone, Copy, PartialEq, Eq, Debug)]
pub enum Fuse {
    /// Power never goes.
    Intact,
    /// `before` more programs and erases end; power goes in the next one, once the first `leading` bytes of its page or block are final.
    Set { before: usize, leading: usize },
}

impl Fuse {
    /// Power goes in the next program or erase.
    pub fn blows(&self) -> bool
        ensures { result ≡ blows_at self.now }
    {
        matches!(self, Fuse::Set { before: 0, .. })
    }

    /// How many of so many bytes the next program or erase makes final.
    pub fn reach(&self, bytes: usize) -> usize
        ensures { result ≡ reach_of self.now bytes }
    {
        match *self {
            Fuse::Set { before: 0, leading } => bytes.min(leading),
            _ => bytes,
        }
    }

    /// The fuse once the next program or erase is over. It blows once.
    pub fn burnt(&self) -> Fuse
        ensures { result ≡ burnt_of self.now }
    {
        match *self {
            Fuse::Intact | Fuse::Set { before: 0, .. } => Fuse::Intact,
            Fuse::Set { before, leading } => Fuse::Set {
                before: before - 1,
                leading,
            },
        }
    }
}
