//! Kinds of key.

ghost use Rattle.std.specs.Prelude.{◌≡◌};
ghost use Rattle.std.specs.declared.cmp.Ordering.{Ordering};
ghost use Rattle.keyed.specs.Orders.{Total};

use std::cmp::Ordering;

/// A kind of key says how two of it compare.
pub trait Key {
    ghost order: { Self → Self → Ordering };

    fn compare(&self, other: &Self) -> Ordering
        ensures { result ≡ order self.now other.now };

    // Just one of less, equal and greater; equal means the same key; greater is less with the two
    // exchanged; less carries over.
    ghost total: { Total order };
}
