//! Crossed neighbours: of no place in a line.

ghost use Rattle.std.specs.Prelude.{◌≡◌, Decides};
ghost use Rattle.report.specs.Reports.{means};
ghost use Rattle.report.specs.Crossed.{Crossed, is_crossed};

use crate::Report;

impl Report {
    /// Whether the own MAC is a neighbour, or one MAC is on both sides.
    pub fn is_crossed(&self) -> bool
        ensures answer { result ≡ is_crossed (means self.now) }
        ensures decides { Decides result (Crossed (means self.now)) }
    {
        let Report {
            mac,
            side1,
            side2,
            ..
        } = *self;
        side1 == mac || side2 == mac || (side1.0 != 0 && side2 == side1)
    }
}
