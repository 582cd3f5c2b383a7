//! A UUID out of one number.

ghost use Rattle.std.specs.Prelude.{◌≡◌};
ghost use Rattle.report.specs.Reports.{whole};

use crate::Uuid;

impl From<u128> for Uuid {
    ghost from_gives = { λ n uuid. whole uuid ≡ n };

    fn from(number: u128) -> Uuid {
        Uuid {
            high: (number >> 64) as u64,
            low: (number & u128::from(u64::MAX)) as u64,
        }
    }
}
