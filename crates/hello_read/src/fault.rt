//! Why a frame is not read; each case has a refusal's number and place.

ghost use Rattle.std.specs.Prelude.{◌≡◌};
ghost use Rattle.hello_read.specs.declared.fault.FrameFault.TheVariants.{Tlv};
ghost use Rattle.hello_read.specs.declared.fault.TlvFault.TheVariants.{Field};
ghost use Rattle.hello_read.specs.Refusals.{field, listed, offset as offset_of, refusal_of, tlv_refusal, frame_refusal};

use crate::layout::{
    DIRECTION, INHIBITION, LINE, REMOTE, SOURCE, STATUSES, TIMEOUT, UUID, VENDOR, VERSION,
};
use std::fmt;

/// The field of a HELLO that has a value outside its range or too wide, or a wrong length: refusal 17.
#[derive(Clone, Copy, PartialEq, Eq, Debug)]
pub enum FieldFault {
    Version,
    Vendor,
    Statuses,
    Timeout,
    Source,
    Line,
    Direction,
    Inhibition,
    Remote,
    Uuid,
}

/// What is wrong with the TLVs of a frame, with the place of the TLV's head: refusal 15.
#[derive(Clone, Copy, PartialEq, Eq, Debug)]
pub enum TlvFault {
    /// Among the first three TLVs, not the type due.
    Order(usize),
    /// The contents reach past the frame.
    Past(usize),
    /// An end TLV with contents.
    FilledEnd(usize),
    /// A HELLO TLV whose contents have not 86 bytes.
    Length(usize),
    /// A second HELLO TLV.
    Second(usize),
    /// The frame, of this length, ends before its end TLV.
    NoEnd(usize),
    /// A field of the HELLO TLV: refusal 17.
    Field(FieldFault),
}

/// Why a frame is no HELLO frame.
#[derive(Clone, Copy, PartialEq, Eq, Debug)]
pub enum FrameFault {
    /// The frame has this length, not 18 to 1518: refusal 15.
    Size(usize),
    /// Not the destination, tag and type of a HELLO frame: refusal 16.
    Foreign,
    /// No HELLO TLV: refusal 16.
    NoHello,
    /// A fault of a TLV.
    Tlv(TlvFault),
}

/// A refusal, with the place or the offset that it names.
#[derive(Clone, Copy, PartialEq, Eq, Debug)]
pub enum Refusal {
    /// Too small a buffer: refusal 1.
    Short,
    /// A frame's size or a TLV is wrong, at this place: refusal 15.
    Broken(usize),
    /// No HELLO frame: refusal 16.
    Foreign,
    /// The field at this offset is wrong: refusal 17.
    Field(usize),
}

impl Refusal {
    /// The number by which C knows the refusal.
    pub fn number(self) -> u32
        ensures { result ≡ (refusal_of self).0 }
    {
        match self {
            Refusal::Short => 1,
            Refusal::Broken(_) => 15,
            Refusal::Foreign => 16,
            Refusal::Field(_) => 17,
        }
    }

    /// The place or the offset that it names.
    pub fn place(self) -> Option<usize>
        ensures { listed result ≡ (refusal_of self).1 }
    {
        match self {
            Refusal::Broken(place) | Refusal::Field(place) => Some(place),
            Refusal::Short | Refusal::Foreign => None,
        }
    }
}

/// The number, the word and what is named.
impl fmt::Display for Refusal {
    fn fmt<W: fmt::Write>(&self, f: &mut fmt::Formatter<W>) -> fmt::Result {
        let number = self.number();
        match self {
            Refusal::Short => write!(f, "{number} Short"),
            Refusal::Broken(place) => write!(f, "{number} Broken {place}"),
            Refusal::Foreign => write!(f, "{number} Foreign"),
            Refusal::Field(offset) => write!(f, "{number} Field {offset}"),
        }
    }
}

impl FieldFault {
    /// The field's offset in the contents of the HELLO TLV.
    pub fn offset(self) -> usize
        ensures { result ≡ offset_of self }
    {
        match self {
            FieldFault::Version => VERSION.at,
            FieldFault::Vendor => VENDOR.at,
            FieldFault::Statuses => STATUSES.at,
            FieldFault::Timeout => TIMEOUT.at,
            FieldFault::Source => SOURCE.at,
            FieldFault::Line => LINE.at,
            FieldFault::Direction => DIRECTION.at,
            FieldFault::Inhibition => INHIBITION.at,
            FieldFault::Remote => REMOTE.at,
            FieldFault::Uuid => UUID.at,
        }
    }
}

// By hand, as each below: a derived `From` has no contract, and clauses name the error that `?` makes.
impl From<FieldFault> for Refusal {
    ghost from_gives = { λ f r. refusal_of r ≡ field (offset_of f) };

    fn from(fault: FieldFault) -> Refusal {
        Refusal::Field(fault.offset())
    }
}

impl From<TlvFault> for Refusal {
    ghost from_gives = { λ f r. refusal_of r ≡ tlv_refusal f };

    fn from(fault: TlvFault) -> Refusal {
        match fault {
            TlvFault::Order(at)
            | TlvFault::Past(at)
            | TlvFault::FilledEnd(at)
            | TlvFault::Length(at)
            | TlvFault::Second(at)
            | TlvFault::NoEnd(at) => Refusal::Broken(at),
            TlvFault::Field(fault) => Refusal::from(fault),
        }
    }
}

impl From<FrameFault> for Refusal {
    ghost from_gives = { λ f r. refusal_of r ≡ frame_refusal f };

    fn from(fault: FrameFault) -> Refusal {
        match fault {
            FrameFault::Size(length) => Refusal::Broken(length),
            FrameFault::Foreign | FrameFault::NoHello => Refusal::Foreign,
            FrameFault::Tlv(fault) => Refusal::from(fault),
        }
    }
}

impl From<FieldFault> for TlvFault {
    ghost from_gives = { λ f r. r ≡ Field f };

    fn from(fault: FieldFault) -> TlvFault {
        TlvFault::Field(fault)
    }
}

impl From<TlvFault> for FrameFault {
    ghost from_gives = { λ f r. r ≡ Tlv f };

    fn from(fault: TlvFault) -> FrameFault {
        FrameFault::Tlv(fault)
    }
}
