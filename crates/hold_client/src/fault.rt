//! Why nothing was read.

ghost use Rattle.std.specs.Prelude.{◌≡◌};
ghost use Rattle.hold_client.specs.declared.fault.HoldFault.TheVariants as fault;

use addressing::Refused;
use node::{Busy, DirectoryFault};

/// Why nothing is read under a hold.
#[derive(Clone, Copy, PartialEq, Eq, Debug)]
pub enum HoldFault<E> {
    /// No hold is granted.
    Busy,
    /// One is granted, and the node refuses what it is asked.
    Refused(E),
}

/// Why no directory is read.
pub type ReadFault = HoldFault<DirectoryFault>;

/// Why no status is read.
pub type StatusFault = HoldFault<Refused>;

// By hand, as each below: a derived `From` has no contract, and clauses name the error that `?` makes.
impl<E> From<Busy> for HoldFault<E> {
    ghost from_gives = { λ w r. r ≡ fault.Busy };

    fn from(_: Busy) -> HoldFault<E> {
        HoldFault::Busy
    }
}

impl From<DirectoryFault> for ReadFault {
    ghost from_gives = { λ w r. r ≡ fault.Refused w };

    fn from(fault: DirectoryFault) -> ReadFault {
        HoldFault::Refused(fault)
    }
}

impl From<Refused> for StatusFault {
    ghost from_gives = { λ w r. r ≡ fault.Refused w };

    fn from(fault: Refused) -> StatusFault {
        HoldFault::Refused(fault)
    }
}
