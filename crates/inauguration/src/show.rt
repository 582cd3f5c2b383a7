//! Refusals of an inauguration, as they are told.

use crate::refused::Refused;
use std::fmt;

impl fmt::Display for Refused {
    fn fmt<W: fmt::Write>(&self, f: &mut fmt::Formatter<W>) -> fmt::Result {
        match self {
            Refused::Mute => write!(f, "6 Mute"),
            Refused::Loose(mac) => write!(f, "7 Loose {mac}"),
            Refused::Split => write!(f, "8 Split"),
            Refused::Mixed => write!(f, "9 Mixed"),
            Refused::Long => write!(f, "10 Long"),
        }
    }
}
