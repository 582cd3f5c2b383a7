//! Inauguration: from the reports held to the train's directory, or the first refusal.

#![tactic(auto)]

mod awake;
mod call;
mod chain;
mod gather;
mod limits;
mod neighbours;
mod reading;
mod refused;
mod show;

pub use call::inaugurate;
pub use refused::Refused;

#[cfg(test)]
mod tables;
#[cfg(test)]
mod tests;
