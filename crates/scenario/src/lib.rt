//! The language of scenarios: one statement a line.

#![tactic(auto)]

mod complaint;
mod number;
mod statement;
mod words;

pub use complaint::{Complaint, NoStatement};
pub use number::{Base, Written};
pub use statement::{NodeStatement, Statement};

#[cfg(test)]
mod tests;
