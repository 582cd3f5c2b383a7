//! The type of places: none exists out of range.

ghost use Rattle.std.specs.Prelude.{◌≤◌};

mod numbers;

/// A host, 0 to 16383, of a subnet, 0 to 63.
#[derive(Clone, Copy, PartialEq, Eq, Debug)]
pub struct Place {
    subnet: u8,
    host: u16,
    ghost subnets: { subnet ≤ 63 },
    ghost hosts: { host ≤ 16383 },
}
