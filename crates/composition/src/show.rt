//! The rules that a described train breaks, as they are told.

use crate::fault::{ConsistFault, ConsistRule, LineFault};
use std::fmt;

impl fmt::Display for ConsistRule {
    fn fmt<W: fmt::Write>(&self, f: &mut fmt::Formatter<W>) -> fmt::Result {
        match self {
            ConsistRule::NoUuid => write!(f, "has the UUID 0"),
            ConsistRule::NodeCount => write!(f, "has no node"),
            ConsistRule::NoNetwork(position) => write!(f, "has a mask of 0 at position {position}"),
            ConsistRule::Gap => write!(f, "leaves out a network below its highest"),
            ConsistRule::NoneAwake => write!(f, "has no node awake"),
            ConsistRule::WrongMac(position) => write!(f, "has a wrong MAC at position {position}"),
        }
    }
}

/// A consist, by its number from the left, counted from 1.
#[derive(Clone, Copy)]
struct Numbered(usize);

impl fmt::Display for Numbered {
    fn fmt<W: fmt::Write>(&self, f: &mut fmt::Formatter<W>) -> fmt::Result {
        let number = self.0.saturating_add(1);
        write!(f, "consist {number}")
    }
}

impl fmt::Display for ConsistFault {
    fn fmt<W: fmt::Write>(&self, f: &mut fmt::Formatter<W>) -> fmt::Result {
        let consist = Numbered(self.place);
        let rule = self.rule;
        write!(f, "{consist} {rule}")
    }
}

impl fmt::Display for LineFault {
    fn fmt<W: fmt::Write>(&self, f: &mut fmt::Formatter<W>) -> fmt::Result {
        match self {
            LineFault::NoConsist => write!(f, "it has no consist"),
            LineFault::InConsist(fault) => write!(f, "{fault}"),
            LineFault::UuidTwice(place) => {
                let consist = Numbered(*place);
                write!(f, "{consist} has the UUID of one before it")
            }
            LineFault::MacTwice(place) => {
                let consist = Numbered(*place);
                write!(f, "{consist} has a MAC that stands before")
            }
            LineFault::Nodes => write!(f, "more than 63 nodes"),
            LineFault::Networks => write!(f, "more than 63 networks"),
            LineFault::Bits => write!(f, "more than 128 set mask bits"),
        }
    }
}
