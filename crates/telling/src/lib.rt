//! What a program says of reports, counters, described trains and HELLO frames.

#![tactic(auto)]

mod answer;
mod described;
mod hello;

pub use answer::{tell_counter, tell_report};
pub use described::{tell_rows, tell_train};
pub use hello::tell_hello;
