//! The home layer of a subnet over any plan.

ghost use Rattle.std.specs.Prelude.{◌≡◌, Some};
ghost use Rattle.plan.specs.Places.{place_means, located};
ghost use Rattle.plan.specs.Meaning.{Exactly};
ghost use Rattle.plan.specs.HomeLayer.{home_serves, home_stands, home_means, HomeServes};
ghost use Rattle.plan.specs.HomeLayerLemmas.{home_lawful};

use crate::consist::{Consist, is_local};
use crate::place::Place;
use crate::plan::Plan;

impl Consist {
    /// The address of a place in a home layer, where the plan below it gives the place this address.
    pub fn address_over(self, place: Place, below: Option<u32>) -> Option<u32>
        ensures { result ≡ home_serves self.subnet (λ _. below) (place_means place) }
    {
        if self.owns(place) {
            self.address(place)
        } else {
            below.filter(|address| !is_local(*address))
        }
    }

    /// The place at an address in a home layer, where the plan below it has this place there.
    pub fn place_over(self, address: u32, below: Option<Place>) -> Option<Place>
        ensures { located result ≡ home_stands self.subnet (λ _. located below) address }
    {
        if is_local(address) {
            self.place_at(address)
        } else {
            below.filter(|place| !self.owns(*place))
        }
    }
}

/// Subnet 1 to 63 is as in its consist plan, every other place as in the plan below, outside the local range.
#[derive(Clone, Copy)]
pub struct Home<P> {
    pub subnet: u8,
    pub below: P,
}

impl<P> Home<P> {
    fn own(&self) -> Consist
        ensures { result.subnet ≡ self.now.subnet }
    {
        Consist {
            subnet: self.subnet,
        }
    }
}

impl<P: Plan> Plan for Home<P> {
    ghost means = { λ plan. home_means plan.subnet (P.Plan.means plan.below) };

    ghost lawful = { λ plan. home_lawful plan.subnet _ _ (P.Plan.lawful plan.below) };

    fn address(&self, place: Place) -> Option<u32>
        ensures answer { result ≡ home_serves self.now.subnet (P.Plan.means self.now.below).serves (place_means place) }
        ensures kept { self.exit.now ≡ self.entry.now }
        ensures said { Exactly (HomeServes self.now.subnet (λ p a. (P.Plan.means self.now.below).serves p ≡ Some a) (place_means place)) result }
    {
        let own = self.own();
        // The plan below is asked only where its answer counts: it may be a layer over another.
        if own.owns(place) {
            own.address(place)
        } else {
            own.address_over(place, self.below.address(place))
        }
    }

    fn place_at(&self, address: u32) -> Option<Place>
        ensures answer { located result ≡ home_stands self.now.subnet (P.Plan.means self.now.below).stands address }
        ensures kept { self.exit.now ≡ self.entry.now }
        ensures said { Exactly (λ p. HomeServes self.now.subnet (λ q a. (P.Plan.means self.now.below).serves q ≡ Some a) p address) (located result) }
    {
        let own = self.own();
        if is_local(address) {
            own.place_at(address)
        } else {
            own.place_over(address, self.below.place_at(address))
        }
    }
}
