//! The limits of a line, and the room that they let everything else have.

/// The most nodes of a line; a node holds no more reports.
pub const NODES: usize = 63;

/// The most networks.
pub const NETWORKS: u32 = 63;

/// The most set mask bits, and so rows.
pub const BITS: u32 = 128;

/// The bytes of a row.
pub const ROW_BYTES: usize = 20;

/// The bytes of that many rows.
pub const BYTES: usize = BITS as usize * ROW_BYTES;
