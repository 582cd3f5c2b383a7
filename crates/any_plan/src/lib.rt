//! A plan that is chosen at run time: a train plan, a consist plan, or home layers over one of them.

#![tactic(auto)]

mod any;
mod questions;
mod show;

pub use any::AnyPlan;
