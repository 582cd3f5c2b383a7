//! The nodes of a scenario, the calls made on them, and the holds in hand.

#![tactic(auto)]

mod holds;
mod made;
mod nodes;
mod started;
mod unplayed;

pub use made::{Made, OwnedCall};
pub use nodes::{Nodes, memory};
pub use started::{Started, out_after, read_rows};
pub use unplayed::Unplayed;

#[cfg(test)]
mod tests;
