//! Nodes compared, and their calls played once more.

#![tactic(auto)]

mod again;
mod agree;

pub use again::play_again;
pub use agree::tell_agreement;
