//! A table that keeps records in rising key order, over a slice that the caller lends.
//!
//! A kind of key shows that its order is total, and a kind of record names its kind of key.
//! `list`, `find`, `store` and `remove` have the calls of a table, each apart from the others.

#![tactic(auto)]

pub mod find;
pub mod key;
pub mod list;
pub mod record;
pub mod remove;
mod show;
pub mod store;
pub mod table;

pub use key::Key;
pub use record::Record;
pub use store::Full;
pub use table::Table;

#[cfg(test)]
mod tests;
