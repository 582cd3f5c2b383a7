//! A client of a node that has a hold on it while it reads the directory, so that no other comes into force meanwhile.

#![tactic(auto)]

mod fault;
mod read;
mod status;

pub use fault::{HoldFault, ReadFault, StatusFault};
pub use read::read_directory;
pub use status::read_status;

#[cfg(test)]
mod tests;
