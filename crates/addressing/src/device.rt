//! The devices of a directory, and why a question about one is refused.

use report::Uuid;

/// A host of a consist's network, or the node at a position of a consist.
#[derive(Clone, Copy, PartialEq, Eq, Debug)]
pub enum Device {
    Host { uuid: Uuid, network: u8, host: u16 },
    Node { uuid: Uuid, position: u8 },
}

/// Why a device has no address, or an address no device.
#[derive(Clone, Copy, PartialEq, Eq, Debug)]
pub enum Refused {
    /// No directory is in force: refusal 12.
    NoDirectory,
    /// The directory has no such device, or the plan does not serve its place: refusal 13.
    Absent,
}
