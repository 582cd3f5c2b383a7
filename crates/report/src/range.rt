//! The ranges of a report's values.

ghost use Rattle.std.specs.Prelude.{◌≡◌, ◌==◌, nat_lt};
ghost use Rattle.report.specs.Reports.{whole, means, is_mac, is_neighbour, is_uuid, macs_fit, filled, in_range};

use crate::mask::{is_gapless, together};
use crate::{Mac, Report, Uuid};

/// Whether the first `nodes` places hold a mask, and no other does.
fn is_filled(masks: &[u8], nodes: usize) -> bool
    ensures { result ≡ filled nodes masks.now }
{
    for (i, mask) in masks.iter().enumerate() {
        if (*mask != 0) != (i < nodes) {
            return false;
        }
    }
    true
}

impl Mac {
    /// Whether it is in the range of a MAC.
    pub fn is_valid(self) -> bool
        ensures { result ≡ is_mac self.0 }
    {
        self.0 != 0 && self.0 < 1 << 48
    }

    /// Whether it is a MAC or stands for no neighbour.
    fn is_neighbour(self) -> bool
        ensures { result ≡ is_neighbour self.0 }
    {
        self.0 < 1 << 48
    }
}

impl Uuid {
    /// Whether it is in the range of a UUID.
    pub fn is_valid(self) -> bool
        ensures { result ≡ is_uuid (whole self) }
    {
        self != Uuid::default()
    }

    /// Whether two are one number. Both by value: each half is then known to fit 64 bits.
    pub fn is_same(self, other: Uuid) -> bool
        ensures { result ≡ (whole self == whole other) }
    {
        self == other
    }

    /// Whether it is the smaller number.
    pub fn is_less(self, other: Uuid) -> bool
        ensures { result ≡ nat_lt (whole self) (whole other) }
    {
        self < other
    }
}

impl Report {
    fn has_valid_macs(&self) -> bool
        ensures { result ≡ macs_fit (means self.now) }
    {
        self.mac.is_valid() && self.side1.is_neighbour() && self.side2.is_neighbour()
    }

    /// Whether every value is in its range.
    pub(crate) fn is_in_range(&self) -> bool
        ensures { result ≡ in_range self.now }
    {
        let nodes = self.nodes;
        if nodes > 4 || !is_filled(&self.masks, usize::from(nodes)) {
            return false;
        }
        self.has_valid_macs()
            && self.uuid.is_valid()
            && 1 <= self.position
            && self.position <= nodes
            && is_gapless(together(&self.masks))
    }
}
