//! The fields of a HELLO that can be written.

ghost use Rattle.std.specs.Prelude.{◌≡◌, Some, None, MatchResult};
ghost use Rattle.hello_read.specs.Hellos.{means, first_wrong};
ghost use Rattle.hello_write.specs.Widths.{narrow, writable};
ghost use Rattle.hello_write.specs.Writing.{meant};

use crate::Writable;
use hello_read::{FieldFault, Hello, ask};

/// Whether each status has at most 2 bits.
fn are_narrow(statuses: [u8; 4]) -> bool
    ensures { result ≡ narrow statuses }
{
    statuses.iter().all(|status| *status < 4)
}

/// The HELLO if it can be written, or the first field, from the left, that cannot.
pub(crate) fn check<'a>(hello: &Hello<'a>) -> Result<Writable<'a>, FieldFault>
    ensures { MatchResult result
        (λ w. (meant w ≡ means hello.now) × (first_wrong (writable (means hello.now)) ≡ None))
        (λ f. first_wrong (writable (means hello.now)) ≡ Some f) }
{
    let fields = hello.fields;
    let vendor = hello.vendor.as_array().ok_or(FieldFault::Vendor)?;
    ask(are_narrow(fields.statuses), FieldFault::Statuses)?;
    fields.check_ranges()?;
    ask(fields.inhibition < 4, FieldFault::Inhibition)?;
    ask(fields.remote < 1 << 48, FieldFault::Remote)?;
    let uuid = hello.uuid.as_array().ok_or(FieldFault::Uuid)?;
    Ok(Writable {
        fields,
        vendor,
        uuid,
    })
}
