//! One frame, and one HELLO, for each refusal and place.

use crate::{ReadHello, hello_read, hello_write};
use hello_read::Fields;

const FIELDS: Fields = Fields {
    source: 0x11,
    remote: 0x0200_0000_0022,
    life_sign: 7,
    counter: 0x17F1_44A7,
    checksum: 0xBEEF,
    statuses: [2, 1, 3, 3],
    timeout: 2,
    port: 4,
    line: b'A',
    direction: 1,
    inhibition: 1,
};

/// What stands in the output for a place until a refusal names one.
const NONE: usize = 9999;

fn frame() -> [u8; 125] {
    let mut buffer = [0; 125];
    let mut place = NONE;
    let _ = hello_write(
        &FIELDS,
        &[0x56; 32],
        &[0x0A; 16],
        20,
        &mut buffer,
        0,
        &mut place,
    );
    buffer
}

/// Lays bytes into a buffer that has room for them.
fn lay(buffer: &mut [u8], at: usize, bytes: &[u8]) {
    if at <= buffer.len() && bytes.len() <= buffer.len() - at {
        let end = at + bytes.len();
        buffer[at..end].copy_from_slice(bytes);
    }
}

fn read(frame: &[u8]) -> (u32, usize) {
    let mut hello = ReadHello {
        fields: FIELDS,
        vendor_at: 0,
        uuid_at: 0,
    };
    let mut place = NONE;
    let number = hello_read(frame, &mut hello, &mut place);
    (number, place)
}

fn write(fields: &Fields, vendor: &[u8], uuid: &[u8], at: usize) -> (u32, usize) {
    let mut buffer = [0; 130];
    let mut place = NONE;
    let number = hello_write(fields, vendor, uuid, 20, &mut buffer, at, &mut place);
    (number, place)
}

/// A byte of the frame, another value for it, and the answer.
const CHANGES: [(usize, u8, u32, usize); 17] = [
    (6, 0xFF, 0, NONE),
    (124, 0x00, 0, NONE),
    (0, 0x00, 16, NONE),
    (14, 0x00, 16, NONE),
    (18, 0x04, 15, 18),
    (27, 0x06, 15, 27),
    (31, 0x02, 15, 31),
    (35, 0x00, 15, 35),
    (36, 0x55, 15, 35),
    (36, 0xFF, 15, 35),
    (123, 0x12, 15, 125),
    (37, 0x21, 16, NONE),
    (43, 0x02, 17, 6),
    (88, 0x03, 17, 51),
    (94, 0x00, 17, 52),
    (96, b'E', 17, 59),
    (97, 0x00, 17, 60),
];

#[test]
fn changed_frames(rt: HostRuntime) {
    for (at, byte, number, place) in CHANGES {
        let mut frame = frame();
        if at < frame.len() {
            frame[at] = byte;
        }
        assert_eq!(rt; read(&frame), (number, place));
    }
}

#[test]
fn cut_and_long_frames(rt: HostRuntime) {
    let frame = frame();
    assert_eq!(rt; read(&frame[0..17]), (15, 17));
    assert_eq!(rt; read(&frame[0..18]), (15, 18));
    assert_eq!(rt; read(&frame[0..124]), (15, 124));
    let mut long = [0; 1519];
    lay(&mut long, 0, &frame);
    assert_eq!(rt; read(&long[0..1518]), (0, NONE));
    assert_eq!(rt; read(&long), (15, 1519));
}

#[test]
fn second_hello(rt: HostRuntime) {
    let frame = frame();
    let mut twice = [0; 213];
    lay(&mut twice, 0, &frame);
    lay(&mut twice, 123, &frame[35..123]);
    assert_eq!(rt; read(&twice), (15, 123));
    // A TLV of type 127 with two bytes of contents is no HELLO.
    lay(&mut twice, 123, &[0xFE, 0x02, 0x20, 0x0E, 0x00, 0x00]);
    assert_eq!(rt; read(&twice), (0, NONE));
}

#[test]
fn unwritable_hellos(rt: HostRuntime) {
    let vendor = [0x56; 32];
    let uuid = [0x0A; 16];
    assert_eq!(rt; write(&FIELDS, &vendor, &uuid, 5), (0, NONE));
    assert_eq!(rt; write(&FIELDS, &vendor, &uuid, 6), (1, NONE));
    assert_eq!(rt; write(&FIELDS, &vendor[0..31], &uuid, 6), (17, 18));
    assert_eq!(rt; write(&FIELDS, &vendor, &uuid[0..15], 6), (17, 70));
    let statuses = Fields {
        statuses: [0, 0, 4, 0],
        ..FIELDS
    };
    assert_eq!(rt; write(&statuses, &vendor, &uuid, 0), (17, 50));
    let timeout = Fields {
        timeout: 0,
        ..FIELDS
    };
    assert_eq!(rt; write(&timeout, &vendor, &uuid, 0), (17, 51));
    let source = Fields {
        source: 1 << 48,
        ..FIELDS
    };
    assert_eq!(rt; write(&source, &vendor, &uuid, 0), (17, 52));
    let line = Fields {
        line: b'a',
        ..FIELDS
    };
    assert_eq!(rt; write(&line, &vendor, &uuid, 0), (17, 59));
}

#[test]
fn more_unwritable_hellos(rt: HostRuntime) {
    let vendor = [0x56; 32];
    let uuid = [0x0A; 16];
    let direction = Fields {
        direction: 3,
        ..FIELDS
    };
    assert_eq!(rt; write(&direction, &vendor, &uuid, 0), (17, 60));
    let inhibition = Fields {
        inhibition: 4,
        ..FIELDS
    };
    assert_eq!(rt; write(&inhibition, &vendor, &uuid, 0), (17, 61));
    let remote = Fields {
        remote: 1 << 48,
        ..FIELDS
    };
    assert_eq!(rt; write(&remote, &vendor, &uuid, 0), (17, 62));
}

#[test]
fn read_back(rt: HostRuntime) {
    let mut hello = ReadHello {
        fields: Fields {
            source: 1,
            remote: 1,
            ..FIELDS
        },
        vendor_at: 0,
        uuid_at: 0,
    };
    let mut place = NONE;
    assert_eq!(rt; hello_read(&frame(), &mut hello, &mut place), 0);
    assert_eq!(rt; hello.fields.source, 0x11);
    assert_eq!(rt; hello.fields.remote, 0x0200_0000_0022);
    assert_eq!(rt; hello.vendor_at, 55);
    assert_eq!(rt; hello.uuid_at, 107);
}
