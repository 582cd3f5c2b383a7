//! Rows of bytes with their CRC-32, from where each comment says. Every CRC was compared with zlib's.

/// A row of bytes, `part` written `times` times, and its CRC.
pub struct Vector {
    pub name: &'static str,
    pub part: &'static [u8],
    pub times: usize,
    pub crc: u32,
}

pub const VECTORS: [Vector; 24] = [
    // Ross Williams, "A painless guide to CRC error detection algorithms", and the RevEng catalogue, CRC-32/ISO-HDLC: the check value.
    Vector {
        name: "123456789",
        part: b"123456789",
        times: 1,
        crc: 0xCBF4_3926,
    },
    // Go, the tests of the package hash/crc32.
    Vector {
        name: "no byte",
        part: b"",
        times: 1,
        crc: 0x0000_0000,
    },
    Vector {
        name: "a",
        part: b"a",
        times: 1,
        crc: 0xE8B7_BE43,
    },
    Vector {
        name: "ab",
        part: b"ab",
        times: 1,
        crc: 0x9E83_486D,
    },
    Vector {
        name: "abc",
        part: b"abc",
        times: 1,
        crc: 0x3524_41C2,
    },
    Vector {
        name: "abcdefghij",
        part: b"abcdefghij",
        times: 1,
        crc: 0x3981_703A,
    },
    Vector {
        name: "Discard medicine more than two years old.",
        part: b"Discard medicine more than two years old.",
        times: 1,
        crc: 0x6B9C_DFE7,
    },
    Vector {
        name: "He who has a shady past knows that nice guys finish last.",
        part: b"He who has a shady past knows that nice guys finish last.",
        times: 1,
        crc: 0xC90E_F73F,
    },
    Vector {
        name: "Free! Free!/A trip/to Mars/for 900/empty jars/Burma Shave",
        part: b"Free! Free!/A trip/to Mars/for 900/empty jars/Burma Shave",
        times: 1,
        crc: 0x0420_80E8,
    },
    // zlib-ng, test_crc32.
    Vector {
        name: "abacus",
        part: b"abacus",
        times: 1,
        crc: 0xC3D7_115B,
    },
    Vector {
        name: "backlog",
        part: b"backlog",
        times: 1,
        crc: 0x0026_9205,
    },
    Vector {
        name: "campfire",
        part: b"campfire",
        times: 1,
        crc: 0x22A5_15F8,
    },
    // The PHP manual, crc32.
    Vector {
        name: "The quick brown fox jumped over the lazy dog.",
        part: b"The quick brown fox jumped over the lazy dog.",
        times: 1,
        crc: 0x82A3_4642,
    },
    // Rosetta Code, CRC-32.
    Vector {
        name: "The quick brown fox jumps over the lazy dog",
        part: b"The quick brown fox jumps over the lazy dog",
        times: 1,
        crc: 0x414F_A339,
    },
    // The strings of RFC 1321, A.5; the CRCs are computed with zlib.
    Vector {
        name: "message digest",
        part: b"message digest",
        times: 1,
        crc: 0x2015_9D7F,
    },
    Vector {
        name: "a to z",
        part: b"abcdefghijklmnopqrstuvwxyz",
        times: 1,
        crc: 0x4C27_50BD,
    },
    Vector {
        name: "A to Z, a to z, 0 to 9",
        part: b"ABCDEFGHIJKLMNOPQRSTUVWXYZabcdefghijklmnopqrstuvwxyz0123456789",
        times: 1,
        crc: 0x1FC2_E6D2,
    },
    Vector {
        name: "8 times 1234567890",
        part: b"1234567890",
        times: 8,
        crc: 0x7CA9_4A72,
    },
    // The rows of RFC 3720, B.4, which has another CRC of them; these are computed with zlib.
    Vector {
        name: "32 times 00",
        part: b"\x00",
        times: 32,
        crc: 0x190A_55AD,
    },
    Vector {
        name: "32 times FF",
        part: b"\xFF",
        times: 32,
        crc: 0xFF6C_AB0B,
    },
    Vector {
        name: "00 to 1F",
        part: b"\x00\x01\x02\x03\x04\x05\x06\x07\x08\x09\x0A\x0B\x0C\x0D\x0E\x0F\x10\x11\x12\x13\x14\x15\x16\x17\x18\x19\x1A\x1B\x1C\x1D\x1E\x1F",
        times: 1,
        crc: 0x9126_7E8A,
    },
    Vector {
        name: "1F to 00",
        part: b"\x1F\x1E\x1D\x1C\x1B\x1A\x19\x18\x17\x16\x15\x14\x13\x12\x11\x10\x0F\x0E\x0D\x0C\x0B\x0A\x09\x08\x07\x06\x05\x04\x03\x02\x01\x00",
        times: 1,
        crc: 0x9AB0_EF72,
    },
    // Computed with zlib.
    Vector {
        name: "1000000 times a",
        part: b"a",
        times: 1_000_000,
        crc: 0xDC25_BFBC,
    },
    Vector {
        name: "4096 times 00 to 1F",
        part: b"\x00\x01\x02\x03\x04\x05\x06\x07\x08\x09\x0A\x0B\x0C\x0D\x0E\x0F\x10\x11\x12\x13\x14\x15\x16\x17\x18\x19\x1A\x1B\x1C\x1D\x1E\x1F",
        times: 4_096,
        crc: 0x7F0E_3712,
    },
];
