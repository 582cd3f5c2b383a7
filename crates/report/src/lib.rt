//! What a backbone node reports of itself, its neighbours and its consist, and the words that carry it.

#![tactic(auto)]

mod crossed;
mod fault;
mod key;
mod layout;
pub mod mask;
mod number;
mod range;
mod read;
mod show;
mod uuid_key;
mod write;

pub use fault::{WordFault, WriteFault};

/// A MAC address, 1 to 2^48 - 1. Where a neighbour is named, 0 says that there is none, as in the words: with an `Option`,
/// `Some(Mac(0))` would say so a second time.
#[derive(Clone, Copy, PartialEq, Eq, PartialOrd, Ord, Default, Debug)]
pub struct Mac(pub u64);

/// A UUID, at least 1: the halves of one number of 128 bits. A `u128` would be no plainer: firmware copies and compares 64 bits
/// at a time, and a number is made a UUID by `From`.
#[derive(Clone, Copy, PartialEq, Eq, PartialOrd, Ord, Default, Debug)]
pub struct Uuid {
    pub high: u64,
    pub low: u64,
}

/// A node's report, with any values: `write` refuses those outside their ranges, and `read` gives none such. So `nodes` stands
/// beside the four places for masks: a number that is out of range can be held too, and is refused.
#[derive(Clone, Copy, PartialEq, Eq, Default, Debug)]
pub struct Report {
    pub mac: Mac,
    /// The next awake node towards the consist's end 1, and towards its end 2.
    pub side1: Mac,
    pub side2: Mac,
    /// The consist, the node's position in it from end 1, and how many nodes it has, 1 to 4.
    pub uuid: Uuid,
    pub position: u8,
    pub nodes: u8,
    /// The networks that each node of the consist serves, bit `i - 1` for network `i`; 0 past its nodes.
    pub masks: [u8; 4],
}

#[cfg(test)]
mod tests;
