//! The ranges of a HELLO's fields.

ghost use Rattle.std.specs.Prelude.{◌≡◌, true, false, [], if◌then◌else◌, Some, None, MatchResult};
ghost use Rattle.hello_read.specs.Hellos.{is_one_or_two, is_line, is_mac, hello_of, first_wrong, ranges, verdict};

use crate::{FieldFault, Fields};

/// Refuses a field that is not right.
pub fn ask(right: bool, fault: FieldFault) -> Result<(), FieldFault>
    ensures answer { result ≡ verdict (if right then None else Some fault) }
    ensures cases { MatchResult result (λ _. right ≡ true) (λ f. (f ≡ fault) × (right ≡ false)) }
{
    if right { Ok(()) } else { Err(fault) }
}

fn is_one_or_two(value: u8) -> bool
    ensures { result ≡ is_one_or_two value }
{
    matches!(value, 1 | 2)
}

fn is_line(value: u8) -> bool
    ensures { result ≡ is_line value }
{
    matches!(value, b'-' | b'A'..=b'D')
}

/// The reports' MACs are tested alike in a crate of their own: the HELLO crates stand alone for C.
fn is_mac(value: u64) -> bool
    ensures { result ≡ is_mac value }
{
    (1..1 << 48).contains(&value)
}

impl Fields {
    /// The first field, from the left, whose value is outside its range.
    pub fn check_ranges(&self) -> Result<(), FieldFault>
        ensures answer { result ≡ verdict (first_wrong (ranges (hello_of self.now [] []))) }
        ensures cases { MatchResult result (λ _. first_wrong (ranges (hello_of self.now [] [])) ≡ None) (λ f. first_wrong (ranges (hello_of self.now [] [])) ≡ Some f) }
    {
        ask(is_one_or_two(self.timeout), FieldFault::Timeout)?;
        ask(is_mac(self.source), FieldFault::Source)?;
        ask(is_line(self.line), FieldFault::Line)?;
        ask(is_one_or_two(self.direction), FieldFault::Direction)
    }
}
