// Why a chip shows nothing.
ghost use Rattle.std.specs.Prelude.{◌≡◌};
ghost use Rattle.replay.specs.Faults.{number_of_fault, refusal_of};
ghost use Rattle.replay.specs.declared.fault.ReplayFault.TheVariants.{Damaged, Flash};

use flash::FlashFault;
use lookup::Unplaced;
use tree::TreeFault;

/// What a reader of a chip answers in place of its files.
#[derive(Clone, Copy, PartialEq, Eq, Debug)]
pub enum ReplayFault {
    /// The working page has not 256 bytes.
    WorkPage,
    /// The listing buffer is too small.
    Buffer,
    /// The flash has fewer than 4 blocks or more than 16.
    Blocks,
    /// The flash's own report: power is off.
    Flash(FlashFault),
    /// There is no data page.
    Empty,
    /// The data pages make no sense together.
    Damaged,
}

impl ReplayFault {
    // A number, since crews and the register know a refusal by it: a rule of the store.
    /// The number of the refusal.
    pub fn number(&self) -> u8
        ensures { result ≡ number_of_fault self.now }
    {
        match self {
            ReplayFault::WorkPage => 1,
            ReplayFault::Buffer => 5,
            ReplayFault::Blocks => 6,
            ReplayFault::Flash(report) => report.number(),
            ReplayFault::Empty => 11,
            ReplayFault::Damaged => 12,
        }
    }
}

impl From<FlashFault> for ReplayFault {
    ghost from_gives = { λ x y. y ≡ Flash x };

    fn from(value: FlashFault) -> ReplayFault {
        ReplayFault::Flash(value)
    }
}

impl From<Unplaced> for ReplayFault {
    ghost from_gives = { λ x y. y ≡ refusal_of x };

    fn from(value: Unplaced) -> ReplayFault {
        match value {
            Unplaced::Taken => ReplayFault::Damaged,
            Unplaced::Full => ReplayFault::Blocks,
        }
    }
}

// Entries that are no tree are damage.
impl From<TreeFault> for ReplayFault {
    ghost from_gives = { λ _ y. y ≡ Damaged };

    fn from(value: TreeFault) -> ReplayFault {
        match value {
            TreeFault::Unreached | TreeFault::Namesakes => ReplayFault::Damaged,
        }
    }
}
