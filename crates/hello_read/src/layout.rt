//! Where a HELLO frame holds what. Numbers stand high byte first.

/// A frame without its CRC has its head and at most 1518 bytes.
pub const HEAD: usize = 18;

pub const LONGEST: usize = 1518;

/// The destination, bytes 0 to 5 of a frame; VLAN tag and type, bytes 12 to 17. The source stands between them.
pub const DESTINATION: [u8; 6] = [0x01, 0x80, 0xC2, 0x00, 0x00, 0x0E];

pub const TAG_AT: usize = 12;

pub const TAG: [u8; 6] = [0x81, 0x00, 0xE1, 0xEC, 0x88, 0xCC];

/// The first bytes of a HELLO TLV's contents: organization and subtype. The contents have 86 bytes.
pub const ORGANIZATION: [u8; 4] = [0x20, 0x0E, 0x95, 0x01];

pub const CONTENTS: usize = 86;

/// A field of these contents: its offset and how many bytes it has.
// That a number has at most 8 bytes is no part of the type, since vendor and UUID are fields too; that a field lies in a slice
// speaks of both.
#[derive(Clone, Copy)]
pub struct Field {
    pub at: usize,
    pub bytes: usize,
}

pub const CHECKSUM: Field = Field { at: 4, bytes: 2 };

pub const VERSION: Field = Field { at: 6, bytes: 4 };

pub const LIFE_SIGN: Field = Field { at: 10, bytes: 4 };

pub const COUNTER: Field = Field { at: 14, bytes: 4 };

pub const VENDOR: Field = Field { at: 18, bytes: 32 };

pub const STATUSES: Field = Field { at: 50, bytes: 1 };

pub const TIMEOUT: Field = Field { at: 51, bytes: 1 };

pub const SOURCE: Field = Field { at: 52, bytes: 6 };

pub const PORT: Field = Field { at: 58, bytes: 1 };

pub const LINE: Field = Field { at: 59, bytes: 1 };

pub const DIRECTION: Field = Field { at: 60, bytes: 1 };

pub const INHIBITION: Field = Field { at: 61, bytes: 1 };

pub const REMOTE: Field = Field { at: 62, bytes: 6 };

pub const RESERVED: Field = Field { at: 68, bytes: 2 };

pub const UUID: Field = Field { at: 70, bytes: 16 };

/// The version 1.0.0.0, the only one.
pub const VERSION_1: u64 = 0x0100_0000;
