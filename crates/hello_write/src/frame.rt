//! A HELLO into a frame. Each writer gets the part of the buffer that begins with its own bytes.

ghost use Rattle.std.specs.Prelude.{◌≡◌, ◌+◌, ◌≤◌, ◌++◌, length, take, drop, IfOk, Ok};
ghost use Rattle.hello_read.specs.Hellos.{means};
ghost use Rattle.hello_read.specs.Layout.{head};
ghost use Rattle.hello_read.specs.Reading.{read};
ghost use Rattle.hello_write.specs.Widths.{Widths};
ghost use Rattle.hello_write.specs.Layout.{big, contents, frame};
ghost use Rattle.hello_write.specs.Writing.{meant, write_told, laid, write_answer, write_leaves, written_answer};

use crate::check::check;
use crate::layout::{
    CHASSIS, CONTENTS_AT, END, END_AT, FRAME, HELLO, HELLO_AT, NumberTlv, PORT_TLV, SENDER, TIME,
};
use crate::{Writable, WriteFault};
use hello_read::Hello;
use hello_read::layout::{
    CHECKSUM, COUNTER, DESTINATION, DIRECTION, Field, INHIBITION, LIFE_SIGN, LINE, ORGANIZATION,
    PORT, REMOTE, RESERVED, SOURCE, STATUSES, TAG, TAG_AT, TIMEOUT, UUID, VENDOR, VERSION,
    VERSION_1,
};

fn put(part: &mut [u8], at: usize, bytes: &[u8])
    requires { at + length bytes.now ≤ length part.old }
    ensures { part.new ≡ laid at bytes.now part.old }
{
    let end = at + bytes.len();
    part[at..end].copy_from_slice(bytes);
}

fn put_number(part: &mut [u8], field: Field, value: u64)
    requires { (field.at + field.bytes ≤ length part.old) × (field.bytes ≤ 8) }
    ensures { part.new ≡ laid field.at (big field.bytes value) part.old }
{
    let Field { at, bytes } = field;
    let all = value.to_be_bytes();
    put(part, at, &all[8 - bytes..]);
}

fn write_contents(part: &mut [u8], hello: &Writable<'_>)
    requires { 86 ≤ length part.old }
    ensures bytes { part.new ≡ laid 0 (contents (meant hello.now)) part.old }
    ensures size { length (contents (meant hello.now)) ≡ 86 }
    ensures widths { Widths (meant hello.now) }
{
    let fields = &hello.fields;
    let vendor = hello.vendor;
    let uuid = hello.uuid;
    let [a, b, c, d] = fields.statuses;
    let statuses = u64::from(a) * 64 + u64::from(b) * 16 + u64::from(c) * 4 + u64::from(d);
    put(part, 0, &ORGANIZATION);
    put_number(part, CHECKSUM, u64::from(fields.checksum));
    put_number(part, VERSION, VERSION_1);
    put_number(part, LIFE_SIGN, u64::from(fields.life_sign));
    put_number(part, COUNTER, u64::from(fields.counter));
    put(part, VENDOR.at, vendor);
    put_number(part, STATUSES, statuses);
    put_number(part, TIMEOUT, u64::from(fields.timeout));
    put_number(part, SOURCE, fields.source);
    put_number(part, PORT, u64::from(fields.port));
    put_number(part, LINE, u64::from(fields.line));
    put_number(part, DIRECTION, u64::from(fields.direction));
    put_number(part, INHIBITION, u64::from(fields.inhibition));
    put_number(part, REMOTE, fields.remote);
    put_number(part, RESERVED, 0);
    put(part, UUID.at, uuid);
}

fn write_head(part: &mut [u8], source: u64)
    requires { 18 ≤ length part.old }
    ensures { part.new ≡ laid 0 (head (big 6 source)) part.old }
{
    put(part, 0, &DESTINATION);
    put_number(part, SENDER, source);
    put(part, TAG_AT, &TAG);
}

fn write_tlv(part: &mut [u8], tlv: NumberTlv, value: u64)
    requires { (length tlv.front.now + tlv.bytes ≤ length part.old) × (tlv.bytes ≤ 8) }
    ensures { part.new ≡ laid 0 (tlv.front.now ++ big tlv.bytes value) part.old }
{
    let NumberTlv { front, bytes, .. } = tlv;
    let at = front.len();
    put(part, 0, front);
    put_number(part, Field { at, bytes }, value);
}

/// The frame at the front of a part of the buffer.
fn write_frame(part: &mut [u8], hello: &Writable<'_>, seconds: u16)
    requires { 125 ≤ length part.old }
    ensures bytes { part.new ≡ laid 0 (frame (meant hello.now) seconds) part.old }
    ensures widths { Widths (meant hello.now) }
{
    let source = hello.fields.source;
    let port = u64::from(hello.fields.port);
    write_head(part, source);
    write_tlv(&mut part[CHASSIS.at..], CHASSIS, source);
    write_tlv(&mut part[PORT_TLV.at..], PORT_TLV, port);
    write_tlv(&mut part[TIME.at..], TIME, u64::from(seconds));
    put(part, HELLO_AT, &HELLO);
    write_contents(&mut part[CONTENTS_AT..], hello);
    put(part, END_AT, &END);
}

/// Writes a frame of 125 bytes, with a time to live in seconds, from a place of the buffer on, and gives their number.
/// A refusal leaves the buffer as it was, and what is written reads back.
pub fn write(
    hello: &Hello<'_>,
    seconds: u16,
    buffer: &mut [u8],
    at: usize,
) -> Result<usize, WriteFault>
    ensures answer { write_told result ≡ write_answer (means hello.now) at (length buffer.old) }
    ensures buffer { buffer.new ≡ write_leaves (means hello.now) seconds at buffer.old }
    ensures reads_back { IfOk result (λ n. read (take n (drop at buffer.new)) ≡ Ok (written_answer (means hello.now))) }
{
    let hello = check(hello)?;
    if buffer.len().saturating_sub(at) < FRAME {
        return Err(WriteFault::Short);
    }
    write_frame(&mut buffer[at..], &hello, seconds);
    Ok(FRAME)
}
