//! The train plan of a backbone.

ghost use Rattle.std.specs.Prelude.{◌≡◌};
ghost use Rattle.plan.specs.Places.{place_means, located};
ghost use Rattle.plan.specs.Meaning.{Exactly};
ghost use Rattle.plan.specs.TrainPlan.{train_serves, train_stands, train_means, TrainServes};
ghost use Rattle.std.proofs.Common.{rules};

use crate::place::Place;
use crate::plan::Plan;

/// 10.128.0.0
const FIRST: u32 = 0x0a80_0000;

const PER_BACKBONE: u32 = 0x20_0000;

const PER_SUBNET: u32 = 0x4000;

/// The train plan of backbone 0 to 3; of another it serves nothing.
#[derive(Clone, Copy)]
pub struct Train {
    pub backbone: u8,
}

impl Plan for Train {
    ghost means = { λ plan. train_means plan.backbone };

    ghost lawful = { Prim.search rules };

    fn address(&self, place: Place) -> Option<u32>
        ensures answer { result ≡ train_serves self.now.backbone (place_means place) }
        ensures kept { self.exit.now ≡ self.entry.now }
        ensures said { Exactly (TrainServes self.now.backbone (place_means place)) result }
    {
        if self.backbone > 3 || !place.is_usable() {
            return None;
        }
        let start = FIRST + u32::from(self.backbone) * PER_BACKBONE;
        Some(start + u32::from(place.subnet()) * PER_SUBNET + u32::from(place.host()))
    }

    fn place_at(&self, address: u32) -> Option<Place>
        ensures answer { located result ≡ train_stands self.now.backbone address }
        ensures kept { self.exit.now ≡ self.entry.now }
        ensures said { Exactly (λ p. TrainServes self.now.backbone p address) (located result) }
    {
        if self.backbone > 3 {
            return None;
        }
        let offset = address.checked_sub(FIRST + u32::from(self.backbone) * PER_BACKBONE)?;
        if offset >= 64 * PER_SUBNET {
            return None;
        }
        let place = Place::new((offset / PER_SUBNET) as u8, (offset % PER_SUBNET) as u16)?;
        place.is_usable().then_some(place)
    }
}
