// Why an object store does not do what it is asked.
ghost use Rattle.std.specs.Prelude.{◌≡◌};
ghost use Rattle.object_store.specs.Faults.{number_of_fault};
ghost use Rattle.object_store.specs.declared.fault.ObjectFault.TheVariants.{Flash};

use flash::FlashFault;

/// What an object store answers in place of what it was asked. It is no case of what a scan answers, nor the other way
/// round: a store need not stand on a chip, and a scan has a buffer to refuse.
#[derive(Clone, Copy, PartialEq, Eq, Debug)]
pub enum ObjectFault {
    /// The working page has not 256 bytes.
    WorkPage,
    /// The flash has fewer than 4 blocks or more than 16.
    Blocks,
    /// The flash's own report: power is off, or went in this call.
    Flash(FlashFault),
    /// There is no data page.
    Empty,
    /// The data pages make no sense together.
    Damaged,
    /// The batch can be made of no map like this one.
    Unfit,
    /// The batch would leave more keys than the limit.
    Full,
    /// Numbers are spent.
    Spent,
}

impl ObjectFault {
    // A number, since crews and the register know a refusal by it: a rule of the store.
    /// The number of the refusal; 0 for an unfit batch, which no user of files ever meets.
    pub fn number(&self) -> u8
        ensures { result ≡ number_of_fault self.now }
    {
        match self {
            ObjectFault::WorkPage => 1,
            ObjectFault::Blocks => 6,
            ObjectFault::Flash(report) => report.number(),
            ObjectFault::Empty => 11,
            ObjectFault::Damaged => 12,
            ObjectFault::Unfit => 0,
            ObjectFault::Full => 25,
            ObjectFault::Spent => 26,
        }
    }
}

impl From<FlashFault> for ObjectFault {
    ghost from_gives = { λ x y. y ≡ Flash x };

    fn from(value: FlashFault) -> ObjectFault {
        ObjectFault::Flash(value)
    }
}
