//! The HELLO reader and writer of `hello`, exported to C under the same names.
//! Each function stands in both crates, since a crate is a library, with tests, or a static library.

#![tactic(auto)]

ghost use Rattle.std.specs.Prelude.{◌≡◌, length};
ghost use Rattle.hello_read.specs.Hellos.{hello_of};
ghost use Rattle.hello_read.specs.Reading.{read};
ghost use Rattle.hello_write.specs.Writing.{write_answer, write_leaves};
ghost use Rattle.hello.specs.Export.{number, place_left, hello_left};

use hello::ReadHello;
use hello_read::Fields;

/// Reads a frame without its CRC. A refusal leaves `hello` as it was, and only a refusal that names a place writes `place`.
#[unsafe(no_mangle)]
pub extern "C" fn hello_read(frame: &[u8], hello: &mut ReadHello, place: &mut usize) -> u32
    ensures number { result ≡ number (read frame.now) }
    ensures hello { hello.new ≡ hello_left (read frame.now) hello.old }
    ensures place { place.new ≡ place_left (read frame.now) place.old }
{
    hello::hello_read(frame, hello, place)
}

/// Writes a frame of 125 bytes, with a time to live in seconds, from a place of the buffer on. A refusal leaves the buffer as it was, and only a refusal that names an offset writes `place`.
#[unsafe(no_mangle)]
pub extern "C" fn hello_write<'a>(
    fields: &Fields,
    vendor: &'a [u8],
    uuid: &'a [u8],
    seconds: u16,
    buffer: &mut [u8],
    at: usize,
    place: &mut usize,
) -> u32
    ensures number { result ≡ number (write_answer (hello_of fields.now vendor.now uuid.now) at (length buffer.old)) }
    ensures buffer { buffer.new ≡ write_leaves (hello_of fields.now vendor.now uuid.now) seconds at buffer.old }
    ensures place { place.new ≡ place_left (write_answer (hello_of fields.now vendor.now uuid.now) at (length buffer.old)) place.old }
{
    hello::hello_write(fields, vendor, uuid, seconds, buffer, at, place)
}
