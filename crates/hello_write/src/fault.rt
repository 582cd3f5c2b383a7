//! Why a HELLO is not written; each case has a refusal's number and place.

ghost use Rattle.std.specs.Prelude.{◌≡◌};
ghost use Rattle.hello_read.specs.Refusals.{refusal_of};
ghost use Rattle.hello_write.specs.declared.fault.WriteFault.TheVariants.{Field};
ghost use Rattle.hello_write.specs.Writing.{write_refusal};

use hello_read::{FieldFault, Refusal};

/// Why a HELLO is not written.
#[derive(Clone, Copy, PartialEq, Eq, Debug)]
pub enum WriteFault {
    /// A field: refusal 17.
    Field(FieldFault),
    /// Fewer than 125 bytes are left in the buffer: refusal 1.
    Short,
}

// By hand, as each below: a derived `From` has no contract, and clauses name the error that `?` makes.
impl From<WriteFault> for Refusal {
    ghost from_gives = { λ f r. refusal_of r ≡ write_refusal f };

    fn from(fault: WriteFault) -> Refusal {
        match fault {
            WriteFault::Field(fault) => Refusal::from(fault),
            WriteFault::Short => Refusal::Short,
        }
    }
}

impl From<FieldFault> for WriteFault {
    ghost from_gives = { λ f r. r ≡ Field f };

    fn from(fault: FieldFault) -> WriteFault {
        WriteFault::Field(fault)
    }
}
