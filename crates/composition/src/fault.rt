//! Which rule a described train breaks, and where.

ghost use Rattle.std.specs.Prelude.{◌≡◌};
ghost use Rattle.composition.specs.declared.fault.LineFault.TheVariants.{InConsist};

/// A rule on each consist; positions count from 1 at its end 1.
#[derive(Clone, Copy, PartialEq, Eq, Debug)]
pub enum ConsistRule {
    /// The UUID is 0.
    NoUuid,
    /// The count of nodes is not 1 to 4.
    NodeCount,
    /// The mask at this position is 0.
    NoNetwork(usize),
    /// The masks together leave out a network below the highest.
    Gap,
    /// No node is awake.
    NoneAwake,
    /// The MAC at this position is out of range.
    WrongMac(usize),
}

/// A consist, by its place from the left, and the rule that it breaks.
#[derive(Clone, Copy, PartialEq, Eq, Debug)]
pub struct ConsistFault {
    pub place: usize,
    pub rule: ConsistRule,
}

/// Why a described train is no line within the limits.
#[derive(Clone, Copy, PartialEq, Eq, Debug)]
pub enum LineFault {
    NoConsist,
    InConsist(ConsistFault),
    /// The consist at this place has the UUID of one before it.
    UuidTwice(usize),
    /// The consist at this place has a MAC that stands before.
    MacTwice(usize),
    /// More than 63 nodes.
    Nodes,
    /// More than 63 networks.
    Networks,
    /// More than 128 set mask bits.
    Bits,
}

// By hand: a derived `From` has no contract, and clauses name the error that `?` makes.
impl From<ConsistFault> for LineFault {
    ghost from_gives = { λ f r. r ≡ InConsist f };

    fn from(fault: ConsistFault) -> LineFault {
        LineFault::InConsist(fault)
    }
}
