//! HELLO frames of an Ethernet train backbone (IEC 61375-2-5, 8.7.5), written.

#![tactic(auto)]

mod check;
mod fault;
mod frame;
mod layout;

pub use fault::WriteFault;
pub use frame::write;
use hello_read::Fields;

/// A HELLO whose fields can be written: vendor and UUID have their lengths. A `Hello` has slices, as C may hand over any length.
#[derive(Clone, Copy)]
struct Writable<'a> {
    fields: Fields,
    vendor: &'a [u8; 32],
    uuid: &'a [u8; 16],
}
