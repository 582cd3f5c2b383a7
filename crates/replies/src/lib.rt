//! What a program says of a node's answers.

#![tactic(auto)]

mod reply;

pub use reply::{tell_answer, tell_place};
