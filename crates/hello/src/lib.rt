//! HELLO frames of an Ethernet train backbone as C is given them: 0 or a refusal's number is returned, everything else goes out through what C lends.
//!
//! `hello_c` exports both functions.

#![tactic(auto)]

ghost use Rattle.std.specs.Prelude.{◌≡◌, length};
ghost use Rattle.hello_read.specs.Hellos.{hello_of};
ghost use Rattle.hello_read.specs.Reading.{read};
ghost use Rattle.hello_read.specs.Refusals.{refusal_of};
ghost use Rattle.hello_write.specs.Writing.{write_answer, write_leaves};
ghost use Rattle.hello.specs.Export.{number, place_named, place_left, hello_left};

use hello_read::{Fields, Hello, HelloFrame, Refusal};
use hello_write::write;

/// What is read: the fields, and where vendor and UUID stand in the frame.
#[repr(C)]
#[derive(Clone, Copy)]
pub struct ReadHello {
    pub fields: Fields,
    pub vendor_at: usize,
    pub uuid_at: usize,
}

/// Hands out the place that a refusal names, if it names one, and gives its number.
fn refuse(refusal: Refusal, place: &mut usize) -> u32
    ensures number { result ≡ (refusal_of refusal).0 }
    ensures place { place.new ≡ place_named (refusal_of refusal) place.old }
{
    if let Some(named) = refusal.place() {
        *place = named;
    }
    refusal.number()
}

/// Reads a frame without its CRC. A refusal leaves `hello` as it was, and only a refusal that names a place writes `place`.
pub fn hello_read(frame: &[u8], hello: &mut ReadHello, place: &mut usize) -> u32
    ensures number { result ≡ number (read frame.now) }
    ensures hello { hello.new ≡ hello_left (read frame.now) hello.old }
    ensures place { place.new ≡ place_left (read frame.now) place.old }
{
    match HelloFrame::read(frame) {
        Ok(
            HelloFrame {
                hello: found,
                vendor_at,
                uuid_at,
                ..
            },
        ) => {
            *hello = ReadHello {
                fields: found.fields,
                vendor_at,
                uuid_at,
            };
            0
        }
        Err(fault) => refuse(Refusal::from(fault), place),
    }
}

/// Writes a frame of 125 bytes, with a time to live in seconds, from a place of the buffer on. A refusal leaves the buffer as it was, and only a refusal that names an offset writes `place`.
pub fn hello_write<'a>(
    fields: &Fields,
    vendor: &'a [u8],
    uuid: &'a [u8],
    seconds: u16,
    buffer: &mut [u8],
    at: usize,
    place: &mut usize,
) -> u32
    ensures number { result ≡ number (write_answer (hello_of fields.now vendor.now uuid.now) at (length buffer.old)) }
    ensures buffer { buffer.new ≡ write_leaves (hello_of fields.now vendor.now uuid.now) seconds at buffer.old }
    ensures place { place.new ≡ place_left (write_answer (hello_of fields.now vendor.now uuid.now) at (length buffer.old)) place.old }
{
    let hello = Hello {
        fields: *fields,
        vendor,
        uuid,
    };
    match write(&hello, seconds, buffer, at) {
        Ok(_) => 0,
        Err(fault) => refuse(Refusal::from(fault), place),
    }
}

#[cfg(test)]
mod tests;
