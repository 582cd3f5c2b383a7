//! A place from its two numbers, and the numbers of a place.

ghost use Rattle.std.specs.Prelude.{◌≡◌};
ghost use Rattle.plan.specs.Places.{place_means, located, placed, usable};

use super::Place;

impl Place {
    /// The place with these numbers, if both are in range.
    pub fn new(subnet: u8, host: u16) -> Option<Place>
        ensures { located result ≡ placed (subnet, host) }
    {
        // As an `if`: the closure of a `then` would need the two ranges as a clause of its own.
        if subnet <= 63 && host <= 16383 {
            Some(Place { subnet, host })
        } else {
            None
        }
    }

    /// Its subnet, 0 to 63.
    pub fn subnet(self) -> u8
        ensures { result ≡ (place_means self).0 }
    {
        self.subnet
    }

    /// Its host within the subnet, 0 to 16383.
    pub fn host(self) -> u16
        ensures { result ≡ (place_means self).1 }
    {
        self.host
    }

    /// Whether a device can stand there: the first and the last host of a subnet are its network and broadcast.
    pub(crate) fn is_usable(self) -> bool
        ensures { result ≡ usable (place_means self) }
    {
        (1..=16382).contains(&self.host)
    }
}
