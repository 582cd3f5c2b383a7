//! A node of the train backbone: the reports that it holds, its directory and the holds on it, and what it is asked.

#![tactic(auto)]

mod call;
mod fault;
mod hold;
mod holds;
mod inaugurate;
mod node;
mod questions;
mod rehearsal;
mod reports;
mod show;
mod status;

pub use call::{Answer, Call};
pub use fault::{Busy, DirectoryFault, InaugurationFault, TakeFault, Unknown};
pub use hold::Hold;
pub use node::Node;
pub use rehearsal::{Player, Recorded, rehearse};
pub use status::{Presence, Status};

#[cfg(test)]
mod tests;
