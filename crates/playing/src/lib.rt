//! Statements about nodes, played.

#![tactic(auto)]

mod scene;

pub use scene::Scene;
