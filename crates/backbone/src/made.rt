//! Calls as they are remembered.

use addressing::Device;
use node::{Answer, Call};
use report::Mac;

/// A call that owns its input, since it outlives the line that it was read from.
// A `Call` borrows its words, as a node has no heap. A parameter for the words, `Call<W>`, would stand on the node's type
// and on all that plays calls for the sake of this one.
#[derive(Drop)]
pub enum OwnedCall {
    Take(Vec<u32>),
    Silence(Mac),
    Inaugurate,
    Hold,
    GiveBack(Mac),
    Directory,
    Status(u8),
    Address(Device),
    Trace(u32),
}

impl OwnedCall {
    pub fn call(&self) -> Call<'_> {
        match self {
            OwnedCall::Take(words) => Call::Take(words),
            OwnedCall::Silence(mac) => Call::Silence(*mac),
            OwnedCall::Inaugurate => Call::Inaugurate,
            OwnedCall::Hold => Call::Hold,
            OwnedCall::GiveBack(mac) => Call::GiveBack(*mac),
            OwnedCall::Directory => Call::Directory,
            OwnedCall::Status(number) => Call::Status(*number),
            OwnedCall::Address(device) => Call::Address(*device),
            OwnedCall::Trace(address) => Call::Trace(*address),
        }
    }
}

/// A call that was made on a node, and its answer.
#[derive(Drop)]
pub struct Made {
    pub call: OwnedCall,
    pub answer: Answer,
}
