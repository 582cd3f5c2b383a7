//! TLVs: a head of 16 bits, the type in the high 7 and the length of the contents in the low 9, then the contents.

ghost use Rattle.std.specs.Prelude.{◌≡◌, ◌+◌, ◌^◌, ◌<◌, ◌≤◌, ◌==◌, ◌&&◌, length, drop, true, IfOk, Ok, Err, None, MatchResult};
ghost use Rattle.hello_read.specs.Layout.{organization};
ghost use Rattle.hello_read.specs.Tlvs.{size, starts, cut, noted, Within, walk};

use crate::TlvFault;
use crate::layout::{CONTENTS, HEAD, ORGANIZATION};

/// A TLV: its type and its contents. The standard numbers the types: 0 ends the frame, 1 to 3 come first, 127 holds what an
/// organization defines.
// No cursor cuts the TLVs off: faults and the answer name the place of a TLV's head, which would then stand in each TLV too.
#[derive(Clone, Copy)]
struct Tlv<'f> {
    kind: u8,
    contents: &'f [u8],
}

impl Tlv<'_> {
    /// Whether it is a HELLO, whatever its length.
    fn is_hello(&self) -> bool
        ensures { result ≡ (self.now.kind == 127 && starts organization self.now.contents.now) }
    {
        self.kind == 127 && self.contents.starts_with(&ORGANIZATION)
    }
}

fn length_of(high: u8, low: u8) -> usize
    ensures { result ≡ size high low }
{
    usize::from(u16::from_be_bytes([high % 2, low]))
}

/// The TLV at the front of the rest of a frame, whose head stands at a place of the frame.
fn cut(rest: &[u8], at: usize) -> Result<Tlv<'_>, TlvFault>
    requires { at + length rest.now < 2 ^ 64 }
    ensures { MatchResult result (λ t. cut at rest.now ≡ Ok (t.kind, t.contents.now)) (λ e. cut at rest.now ≡ Err e) }
{
    match rest {
        [high, low, rest @ ..] if rest.len() < length_of(*high, *low) => Err(TlvFault::Past(at)),
        [high, low, rest @ ..] => Ok(Tlv {
            kind: *high >> 1,
            contents: &rest[0..length_of(*high, *low)],
        }),
        _ => Err(TlvFault::NoEnd(at + rest.len())),
    }
}

/// The place behind the first three TLVs, whose types are 1, 2 and 3.
// That the frame has its head of 18 bytes is asked by three private functions: each would only take a type of such frames apart.
fn behind_first(frame: &[u8]) -> Result<usize, TlvFault>
    requires { 18 ≤ length frame.now }
    ensures { MatchResult result
        (λ at. (at ≤ length frame.now) × (walk 0 18 0 None (drop 18 frame.now) ≡ walk 0 at 3 None (drop at frame.now)))
        (λ e. walk 0 18 0 None (drop 18 frame.now) ≡ Err e) }
{
    let mut at = HEAD;
    for kind in 1..4 {
        let tlv = cut(&frame[at..], at)?;
        if tlv.kind != kind {
            return Err(TlvFault::Order(at));
        }
        at += 2 + tlv.contents.len();
    }
    Ok(at)
}

/// The place of the HELLO found, once the TLV at a place is known to be one.
fn note(found: Option<usize>, at: usize) -> Result<Option<usize>, TlvFault>
    ensures { result ≡ noted found true at }
{
    match found {
        Some(_) => Err(TlvFault::Second(at)),
        None => Ok(Some(at)),
    }
}

/// The place of the one HELLO among the TLVs from a place on, up to the end.
fn find_late(frame: &[u8], from: usize) -> Result<Option<usize>, TlvFault>
    requires { from ≤ length frame.now }
    ensures { result ≡ walk 0 from 3 None (drop from frame.now) }
{
    let mut at = from;
    let mut found = None;
    loop {
        let tlv = cut(&frame[at..], at)?;
        if tlv.kind == 0 {
            return if tlv.contents.is_empty() {
                Ok(found)
            } else {
                Err(TlvFault::FilledEnd(at))
            };
        }
        if tlv.is_hello() {
            if tlv.contents.len() != CONTENTS {
                return Err(TlvFault::Length(at));
            }
            found = note(found, at)?;
        }
        at += 2 + tlv.contents.len();
    }
}

/// The place of the one HELLO TLV of a frame, if it has one.
pub(crate) fn find_hello(frame: &[u8]) -> Result<Option<usize>, TlvFault>
    requires { 18 ≤ length frame.now }
    ensures answer { result ≡ walk 0 18 0 None (drop 18 frame.now) }
    ensures within { IfOk result (Within (length frame.now)) }
{
    let from = behind_first(frame)?;
    find_late(frame, from)
}
