//! What an address plan is asked, and what it means.

ghost use Rattle.std.specs.Prelude.{◌≡◌};
ghost use Rattle.plan.specs.Places.{place_means, located};
ghost use Rattle.plan.specs.Meaning.{Meaning, Lawful};

use crate::place::Place;

/// A set of places that it serves, each at an address of its own.
pub trait Plan {
    // The address of each place that it serves, by subnet and host, and the place at each address.
    ghost means: { Self → Meaning };

    /// The address of a place, if it is served.
    fn address(&self, place: Place) -> Option<u32>
        ensures answer { result ≡ (means self.now).serves (place_means place) }
        ensures kept { self.exit.now ≡ self.entry.now };

    /// The place at an address, if a served one has it.
    fn place_at(&self, address: u32) -> Option<Place>
        ensures answer { located result ≡ (means self.now).stands address }
        ensures kept { self.exit.now ≡ self.entry.now };

    ghost lawful: { (plan : Self) → Lawful (means plan).serves (means plan).stands };
}
