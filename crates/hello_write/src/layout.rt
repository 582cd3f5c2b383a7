//! The frame that is written: where its TLVs stand, and the bytes that each begins with.

use hello_read::layout::Field;

pub(crate) const FRAME: usize = 125;

/// The frame's source.
pub(crate) const SENDER: Field = Field { at: 6, bytes: 6 };

/// A TLV with a number at its end: where it stands, the bytes that it begins with, and how many bytes the number has.
#[derive(Clone, Copy)]
pub(crate) struct NumberTlv {
    pub(crate) at: usize,
    pub(crate) front: &'static [u8],
    pub(crate) bytes: usize,
}

/// Type 1, length 7, subtype 4, and the sender's MAC.
pub(crate) const CHASSIS: NumberTlv = NumberTlv {
    at: 18,
    front: &[0x02, 0x07, 0x04],
    bytes: 6,
};

/// Type 2, length 2, subtype 6, and the port.
pub(crate) const PORT_TLV: NumberTlv = NumberTlv {
    at: 27,
    front: &[0x04, 0x02, 0x06],
    bytes: 1,
};

/// Type 3, length 2, and the time to live in seconds.
pub(crate) const TIME: NumberTlv = NumberTlv {
    at: 31,
    front: &[0x06, 0x02],
    bytes: 2,
};

/// The HELLO TLV: type 127, length 86.
pub(crate) const HELLO_AT: usize = 35;

pub(crate) const HELLO: [u8; 2] = [0xFE, 0x56];

pub(crate) const CONTENTS_AT: usize = 37;

/// The end TLV.
pub(crate) const END_AT: usize = 123;

pub(crate) const END: [u8; 2] = [0x00, 0x00];
