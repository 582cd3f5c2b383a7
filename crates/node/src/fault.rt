//! Why a call is refused.

ghost use Rattle.std.specs.Prelude.{◌≡◌};
ghost use Rattle.node.specs.declared.fault.TakeFault.TheVariants as taking;
ghost use Rattle.node.specs.declared.fault.InaugurationFault.TheVariants as inaugurating;
ghost use Rattle.node.specs.declared.fault.DirectoryFault.TheVariants as asking;

use directory::Short;
use inauguration::Refused;
use keyed::Full;
use report::WordFault;

/// Why a report is not taken.
#[derive(Clone, Copy, PartialEq, Eq, Debug)]
pub enum TakeFault {
    /// The words are not of the layout: refusal 2.
    Garbled(WordFault),
    /// The own MAC is a neighbour, or one MAC is on both sides: refusal 3.
    Crossed,
    /// The MAC is new, and every place is taken: refusal 4.
    Full,
}

// By hand, as each below: a derived `From` has no contract, and clauses name the error that `?` makes.
impl From<WordFault> for TakeFault {
    ghost from_gives = { λ w r. r ≡ taking.Garbled w };

    fn from(fault: WordFault) -> TakeFault {
        TakeFault::Garbled(fault)
    }
}

impl From<Full> for TakeFault {
    ghost from_gives = { λ w r. r ≡ taking.Full };

    fn from(_: Full) -> TakeFault {
        TakeFault::Full
    }
}

/// No report is held under the MAC: refusal 5.
#[derive(Clone, Copy, PartialEq, Eq, Debug)]
pub struct Unknown;

/// Why an inauguration is refused.
#[derive(Clone, Copy, PartialEq, Eq, Debug)]
pub enum InaugurationFault {
    /// The reports held give no directory: refusals 6 to 10.
    Refused(Refused),
    /// A hold is out, and the directory found is not in force: refusal 11.
    Barred,
}

impl From<Refused> for InaugurationFault {
    ghost from_gives = { λ w r. r ≡ inaugurating.Refused w };

    fn from(fault: Refused) -> InaugurationFault {
        InaugurationFault::Refused(fault)
    }
}

/// 16 holds are out: refusal 14.
#[derive(Clone, Copy, PartialEq, Eq, Debug)]
pub struct Busy;

/// Why a directory is not written.
#[derive(Clone, Copy, PartialEq, Eq, Debug)]
pub enum DirectoryFault {
    /// None is in force: refusal 12.
    NoDirectory,
    /// The rows do not fit the buffer: refusal 1.
    Short,
}

impl From<Short> for DirectoryFault {
    ghost from_gives = { λ w r. r ≡ asking.Short };

    fn from(_: Short) -> DirectoryFault {
        DirectoryFault::Short
    }
}
