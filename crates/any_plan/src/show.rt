//! A plan as a scenario names it.

use crate::any::AnyPlan;
use plan::{Consist, Train};
use std::fmt;

impl fmt::Display for AnyPlan {
    fn fmt<W: fmt::Write>(&self, f: &mut fmt::Formatter<W>) -> fmt::Result {
        // A loop, not a call of itself: a nest can be deep.
        let mut plan = self;
        loop {
            match plan {
                AnyPlan::Train(train) => {
                    let Train { backbone } = *train;
                    return write!(f, "train {backbone}");
                }
                AnyPlan::Consist(consist) => {
                    let Consist { subnet } = *consist;
                    return write!(f, "consist {subnet}");
                }
                AnyPlan::Home { subnet, below } => {
                    write!(f, "home {subnet} ")?;
                    plan = below;
                }
            }
        }
    }
}
