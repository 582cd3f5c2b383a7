//! MACs as keys, and the key of a report: its own MAC.

ghost use Rattle.std.specs.Prelude.{◌≡◌};
ghost use Rattle.keyed.specs.Orders.{numbers};
ghost use Rattle.std.proofs.Common.{rules};

use crate::{Mac, Report};
use keyed::{Key, Record};
use std::cmp::Ordering;

impl Key for Mac {
    ghost order = { λ a b. numbers a.0 b.0 };

    ghost total = { Prim.search rules };

    fn compare(&self, other: &Mac) -> Ordering {
        self.cmp(other)
    }
}

impl Record for Report {
    type Key = Mac;

    ghost under = { λ r. r.mac };

    fn key(&self) -> Mac {
        self.mac
    }
}
