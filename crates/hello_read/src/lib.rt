//! HELLO frames of an Ethernet train backbone (IEC 61375-2-5, 8.7.5), read.

#![tactic(auto)]

mod fault;
mod frame;
pub mod layout;
mod range;
mod read;
mod tlv;

pub use fault::{FieldFault, FrameFault, Refusal, TlvFault};
pub use frame::HelloFrame;
pub use range::ask;

/// The fields of a HELLO that are numbers, with any values: what is read is in range.
/// Codes and no enums, since C reads and writes this struct.
#[repr(C)]
#[derive(Clone, Copy, Debug)]
pub struct Fields {
    /// The sender's MAC, not 0, and the neighbour's last known MAC.
    pub source: u64,
    pub remote: u64,
    /// The number of the frame, rising.
    pub life_sign: u32,
    /// The sender's directory counter.
    pub counter: u32,
    pub checksum: u16,
    /// What lines A, B, C and D receive, 2 bits each: 1 nothing, 2 frames, 3 not available.
    pub statuses: [u8; 4],
    /// 1 slow, 2 fast.
    pub timeout: u8,
    pub port: u8,
    /// The line that the frame is sent on: one of the characters A, B, C, D and -.
    pub line: u8,
    /// 1 or 2.
    pub direction: u8,
    /// 2 bits: 1 allowed, 2 inhibited, 3 not available.
    pub inhibition: u8,
}

/// A HELLO: its numbers, the vendor's text of 32 bytes and the consist's UUID of 16.
#[derive(Clone, Copy)]
pub struct Hello<'a> {
    pub fields: Fields,
    pub vendor: &'a [u8],
    pub uuid: &'a [u8],
}
