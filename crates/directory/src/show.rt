//! Rows, and a buffer that is too short for them, as they are told.

use crate::bytes::Short;
use crate::row::{Row, Way};
use std::fmt;

impl fmt::Display for Way {
    fn fmt<W: fmt::Write>(&self, f: &mut fmt::Formatter<W>) -> fmt::Result {
        match self {
            Way::Forward => write!(f, "forward"),
            Way::Turned => write!(f, "turned"),
        }
    }
}

impl fmt::Display for Row {
    fn fmt<W: fmt::Write>(&self, f: &mut fmt::Formatter<W>) -> fmt::Result {
        let Row {
            uuid,
            network,
            subnet,
            node,
            way,
        } = *self;
        write!(f, "{uuid} {network} {subnet} {node} {way}")
    }
}

// The text also of a report's `WriteFault::Short`: that one is a case beside another, and holds no fault of this crate above it.
impl fmt::Display for Short {
    fn fmt<W: fmt::Write>(&self, f: &mut fmt::Formatter<W>) -> fmt::Result {
        write!(f, "1 Short")
    }
}
