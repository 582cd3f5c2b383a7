//! A full table, as it is told.

use crate::store::Full;
use std::fmt;

impl fmt::Display for Full {
    fn fmt<W: fmt::Write>(&self, f: &mut fmt::Formatter<W>) -> fmt::Result {
        write!(f, "4 Full")
    }
}
