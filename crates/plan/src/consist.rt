//! The consist plan of a subnet, and the local range that its addresses are in.

ghost use Rattle.std.specs.Prelude.{◌≡◌};
ghost use Rattle.plan.specs.Places.{place_means, located};
ghost use Rattle.plan.specs.Meaning.{Exactly};
ghost use Rattle.plan.specs.ConsistPlan.{is_local, is_own, consist_serves, consist_stands, consist_means, ConsistServes};
ghost use Rattle.std.proofs.Common.{rules};

use crate::place::Place;
use crate::plan::Plan;

/// 10.0.0.0
const LOCAL: u32 = 0x0a00_0000;

/// 10.0.63.255
const LOCAL_LAST: u32 = 0x0a00_3fff;

/// Whether an address is in the local range.
pub fn is_local(address: u32) -> bool
    ensures { result ≡ is_local address }
{
    (LOCAL..=LOCAL_LAST).contains(&address)
}

/// The consist plan of subnet 1 to 63; of another it serves nothing.
#[derive(Clone, Copy)]
pub struct Consist {
    pub subnet: u8,
}

impl Consist {
    /// Whether a place is in its subnet.
    pub fn owns(self, place: Place) -> bool
        ensures { result ≡ is_own self.subnet (place_means place) }
    {
        (1..=63).contains(&self.subnet) && place.subnet() == self.subnet
    }
}

impl Plan for Consist {
    ghost means = { λ plan. consist_means plan.subnet };

    ghost lawful = { Prim.search rules };

    fn address(&self, place: Place) -> Option<u32>
        ensures answer { result ≡ consist_serves self.now.subnet (place_means place) }
        ensures kept { self.exit.now ≡ self.entry.now }
        ensures said { Exactly (ConsistServes self.now.subnet (place_means place)) result }
    {
        (self.owns(place) && place.is_usable()).then_some(LOCAL + u32::from(place.host()))
    }

    fn place_at(&self, address: u32) -> Option<Place>
        ensures answer { located result ≡ consist_stands self.now.subnet address }
        ensures kept { self.exit.now ≡ self.entry.now }
        ensures said { Exactly (λ p. ConsistServes self.now.subnet p address) (located result) }
    {
        if !is_local(address) {
            return None;
        }
        let place = Place::new(self.subnet, (address - LOCAL) as u16)?;
        (self.owns(place) && place.is_usable()).then_some(place)
    }
}
