//! Address plans: a plan serves a set of places, each at an address of its own.

#![tactic(auto)]

mod consist;
mod home;
mod place;
mod plan;
mod train;

pub use consist::{Consist, is_local};
pub use home::Home;
pub use place::Place;
pub use plan::Plan;
pub use train::Train;

#[cfg(test)]
mod tests;
