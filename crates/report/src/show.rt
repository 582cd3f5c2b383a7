//! MACs, UUIDs and refusals, as they are told.

use crate::{Mac, Uuid, WordFault, WriteFault};
use std::fmt;

impl fmt::Display for Mac {
    fn fmt<W: fmt::Write>(&self, f: &mut fmt::Formatter<W>) -> fmt::Result {
        let Mac(mac) = *self;
        write!(f, "{mac:012x}")
    }
}

impl fmt::Display for Uuid {
    fn fmt<W: fmt::Write>(&self, f: &mut fmt::Formatter<W>) -> fmt::Result {
        let Uuid { high, low } = *self;
        write!(f, "{high:016x}{low:016x}")
    }
}

impl fmt::Display for WordFault {
    fn fmt<W: fmt::Write>(&self, f: &mut fmt::Formatter<W>) -> fmt::Result {
        let place = self.place();
        write!(f, "2 Garbled {place}")
    }
}

impl fmt::Display for WriteFault {
    fn fmt<W: fmt::Write>(&self, f: &mut fmt::Formatter<W>) -> fmt::Result {
        match self {
            WriteFault::Field => write!(f, "17 Field"),
            WriteFault::Short => write!(f, "1 Short"),
        }
    }
}
