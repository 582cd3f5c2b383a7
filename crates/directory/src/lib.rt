//! The train network directory: the rows that the nodes of a line give, their bytes and counter, and what it is asked.

#![tactic(auto)]

mod ask;
mod bytes;
mod directory;
mod fill;
pub mod limits;
mod read;
mod row;
mod search;
mod show;

pub use bytes::Short;
pub use directory::Directory;
pub use read::UnknownDirection;
pub use row::{BLANK, MetNode, Row, Way};

#[cfg(test)]
mod tests;
