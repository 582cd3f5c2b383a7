//! The type of plans that are chosen at run time.

ghost use Rattle.std.specs.Prelude.{◌≡◌, IfOk};
ghost use Rattle.any_plan.specs.Chosen.{home, chosen};

use plan::{Consist, Train};
use std::alloc::{AllocError, Global};

/// Any of the three plans. A home layer holds the plan below it in a box.
// Not plan's `Home` over a box of a plan: a box would have to be a plan, which only plan's crate may say, and it has no heap.
#[derive(Drop)]
pub enum AnyPlan {
    Train(Train),
    Consist(Consist),
    Home { subnet: u8, below: Box<AnyPlan> },
}

impl AnyPlan {
    /// The home layer of a subnet over a plan.
    pub fn home(heap: Global, subnet: u8, below: AnyPlan) -> Result<AnyPlan, AllocError>
        ensures { IfOk result (λ plan. chosen plan ≡ home subnet (chosen below)) }
    {
        let below = Box::new(heap, below)?;
        Ok(AnyPlan::Home { subnet, below })
    }
}
