//! UUIDs as keys: in the order of their numbers of 128 bits.

ghost use Rattle.std.specs.Prelude.{◌≡◌};
ghost use Rattle.keyed.specs.Orders.{numbers, pairs};
ghost use Rattle.report.specs.Reports.{whole};
ghost use Rattle.std.proofs.Common.{rules};

use crate::Uuid;
use keyed::Key;
use std::cmp::Ordering;

/// By value, so that each half is known to fit 64 bits.
fn order(a: Uuid, b: Uuid) -> Ordering
    ensures order { result ≡ pairs (a.high, a.low) (b.high, b.low) }
    ensures number { result ≡ numbers (whole a) (whole b) }
{
    a.cmp(&b)
}

impl Key for Uuid {
    ghost order = { λ a b. pairs (a.high, a.low) (b.high, b.low) };

    ghost total = { Prim.search rules };

    fn compare(&self, other: &Uuid) -> Ordering
        ensures order { result ≡ pairs (self.now.high, self.now.low) (other.now.high, other.now.low) }
        ensures number { result ≡ numbers (whole self.now) (whole other.now) }
    {
        order(*self, *other)
    }
}
