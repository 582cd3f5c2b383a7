//! A HELLO out of a frame.

ghost use Rattle.std.specs.Prelude.{◌≡◌, ◌+◌, ◌*◌, ◌^◌, ◌<◌, ◌≤◌, ◌&&◌, length, IfOk, Some, None, MatchResult};
ghost use Rattle.hello_read.specs.Hellos.{means, hello_of, first_wrong};
ghost use Rattle.hello_read.specs.Layout.{bytes_at, number, number_at, hello_in};
ghost use Rattle.hello_read.specs.Frames.{Exact};
ghost use Rattle.hello_read.specs.Refusals.{Borrows, read_told};
ghost use Rattle.hello_read.specs.Reading.{headed, contents_at, asked, Refuses, read};

use crate::frame::HelloFrame;
use crate::layout::{
    CHECKSUM, CONTENTS, COUNTER, DESTINATION, DIRECTION, Field, HEAD, INHIBITION, LIFE_SIGN, LINE,
    LONGEST, PORT, REMOTE, SOURCE, STATUSES, TAG, TAG_AT, TIMEOUT, UUID, VENDOR, VERSION,
    VERSION_1,
};
use crate::range::ask;
use crate::tlv::find_hello;
use crate::{FieldFault, Fields, FrameFault, Hello, TlvFault};

/// The bytes of a field.
fn part(contents: &[u8], field: Field) -> &[u8]
    requires { field.at + field.bytes ≤ length contents.now }
    ensures value { result.now ≡ bytes_at field.at field.bytes contents.now }
    ensures size { length result.now ≡ field.bytes }
{
    let Field { at, bytes } = field;
    &contents[at..at + bytes]
}

/// The number in a field.
fn number_at(contents: &[u8], field: Field) -> u64
    requires { (field.at + field.bytes ≤ length contents.now) × (field.bytes ≤ 8) }
    ensures value { result ≡ number_at field.at field.bytes contents.now }
    ensures fits { result < 256 ^ field.bytes }
{
    let mut bytes = [0; 8];
    bytes[8 - field.bytes..].copy_from_slice(part(contents, field));
    u64::from_be_bytes(bytes)
}

/// The fields in the contents of a HELLO TLV, or the first that is out of range.
fn read_fields(contents: &[u8]) -> Result<Fields, FieldFault>
    requires { length contents.now ≡ 86 }
    ensures { MatchResult result
        (λ f. (hello_of f (bytes_at 18 32 contents.now) (bytes_at 70 16 contents.now) ≡ hello_in contents.now) × (first_wrong (asked contents.now) ≡ None))
        (λ e. first_wrong (asked contents.now) ≡ Some e) }
{
    ask(
        number_at(contents, VERSION) == VERSION_1,
        FieldFault::Version,
    )?;
    let statuses = number_at(contents, STATUSES) as u8;
    let fields = Fields {
        source: number_at(contents, SOURCE),
        remote: number_at(contents, REMOTE),
        life_sign: number_at(contents, LIFE_SIGN) as u32,
        counter: number_at(contents, COUNTER) as u32,
        checksum: number_at(contents, CHECKSUM) as u16,
        statuses: [
            statuses / 64 % 4,
            statuses / 16 % 4,
            statuses / 4 % 4,
            statuses % 4,
        ],
        timeout: number_at(contents, TIMEOUT) as u8,
        port: number_at(contents, PORT) as u8,
        line: number_at(contents, LINE) as u8,
        direction: number_at(contents, DIRECTION) as u8,
        inhibition: number_at(contents, INHIBITION) as u8 % 4,
    };
    fields.check_ranges()?;
    Ok(fields)
}

/// The HELLO in the TLV whose head stands at a place of the frame.
fn read_hello<'f>(frame: &'f [u8], at: usize) -> Result<Hello<'f>, TlvFault>
    requires { at + 88 ≤ length frame.now }
    ensures { MatchResult result
        (λ h. (means h ≡ hello_in (contents_at at frame.now)) × (first_wrong (asked (contents_at at frame.now)) ≡ None))
        (λ e. Refuses (first_wrong (asked (contents_at at frame.now))) e) }
{
    let contents = &frame[at + 2..at + 2 + CONTENTS];
    let fields = read_fields(contents)?;
    Ok(Hello {
        fields,
        vendor: part(contents, VENDOR),
        uuid: part(contents, UUID),
    })
}

/// Whether the frame's destination, tag and type are those of a HELLO frame.
fn is_headed(frame: &[u8]) -> bool
    requires { 18 ≤ length frame.now }
    ensures { result ≡ headed frame.now }
{
    frame.starts_with(&DESTINATION) && frame[TAG_AT..].starts_with(&TAG)
}

/// The checks in their order.
fn read_frame(frame: &[u8]) -> Result<HelloFrame<'_>, FrameFault>
    ensures answer { read_told result ≡ read frame.now }
    ensures frame { IfOk result (λ f. Borrows frame.now f) }
{
    if !(HEAD..=LONGEST).contains(&frame.len()) {
        return Err(FrameFault::Size(frame.len()));
    }
    if !is_headed(frame) {
        return Err(FrameFault::Foreign);
    }
    let Some(at) = find_hello(frame)? else {
        return Err(FrameFault::NoHello);
    };
    let hello = read_hello(frame, at)?;
    Ok(HelloFrame {
        frame,
        hello,
        vendor_at: at + 2 + VENDOR.at,
        uuid_at: at + 2 + UUID.at,
    })
}

impl<'f> HelloFrame<'f> {
    /// The HELLO in a frame without its CRC, or the first fault. Exactly the HELLO frames are read.
    pub fn read(frame: &'f [u8]) -> Result<HelloFrame<'f>, FrameFault>
        ensures answer { read_told result ≡ read frame.now }
        ensures frame { IfOk result (λ f. Borrows frame.now f) }
        ensures exact { Exact }
    {
        read_frame(frame)
    }
}
