//! The two questions of a plan, asked layer by layer.

ghost use Rattle.std.specs.Prelude.{◌≡◌};
ghost use Rattle.plan.specs.Places.{place_means, located};
ghost use Rattle.any_plan.specs.Chosen.{chosen, any_means};
ghost use Rattle.any_plan.specs.Laws.{any_lawful};

use crate::any::AnyPlan;
use plan::{Consist, Place, Plan, is_local};

fn address_in(plan: &AnyPlan, place: Place) -> Option<u32>
    ensures { result ≡ (any_means (chosen plan.now)).serves (place_means place) }
{
    match plan {
        AnyPlan::Train(train) => train.address(place),
        AnyPlan::Consist(consist) => consist.address(place),
        AnyPlan::Home { subnet, below } => {
            let own = Consist { subnet: *subnet };
            // The plan below is asked only where its answer counts: a nest can be deep.
            if own.owns(place) {
                own.address(place)
            } else {
                own.address_over(place, address_in(below, place))
            }
        }
    }
}

fn place_in(plan: &AnyPlan, address: u32) -> Option<Place>
    ensures { located result ≡ (any_means (chosen plan.now)).stands address }
{
    match plan {
        AnyPlan::Train(train) => train.place_at(address),
        AnyPlan::Consist(consist) => consist.place_at(address),
        AnyPlan::Home { subnet, below } => {
            let own = Consist { subnet: *subnet };
            if is_local(address) {
                own.place_at(address)
            } else {
                own.place_over(address, place_in(below, address))
            }
        }
    }
}

impl Plan for AnyPlan {
    ghost means = { λ plan. any_means (chosen plan) };

    ghost lawful = { λ plan. any_lawful (chosen plan) };

    fn address(&self, place: Place) -> Option<u32> {
        address_in(self, place)
    }

    fn place_at(&self, address: u32) -> Option<Place> {
        place_in(self, address)
    }
}
