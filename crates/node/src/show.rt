//! What is known of a node, and refused calls, as they are told.

use crate::fault::{Busy, DirectoryFault, InaugurationFault, TakeFault, Unknown};
use crate::status::{Presence, Status};
use addressing::Refused;
use directory::Short;
use keyed::Full;
use std::fmt;

impl fmt::Display for Presence {
    fn fmt<W: fmt::Write>(&self, f: &mut fmt::Formatter<W>) -> fmt::Result {
        match self {
            Presence::Awake => write!(f, "awake"),
            Presence::Silent => write!(f, "silent"),
        }
    }
}

impl fmt::Display for Status {
    fn fmt<W: fmt::Write>(&self, f: &mut fmt::Formatter<W>) -> fmt::Result {
        let Status {
            uuid,
            position,
            presence,
        } = *self;
        write!(f, "uuid {uuid} position {position} {presence}")
    }
}

impl fmt::Display for TakeFault {
    fn fmt<W: fmt::Write>(&self, f: &mut fmt::Formatter<W>) -> fmt::Result {
        match self {
            TakeFault::Garbled(fault) => write!(f, "{fault}"),
            TakeFault::Crossed => write!(f, "3 Crossed"),
            TakeFault::Full => write!(f, "{Full}"),
        }
    }
}

impl fmt::Display for Unknown {
    fn fmt<W: fmt::Write>(&self, f: &mut fmt::Formatter<W>) -> fmt::Result {
        write!(f, "5 Unknown")
    }
}

impl fmt::Display for InaugurationFault {
    fn fmt<W: fmt::Write>(&self, f: &mut fmt::Formatter<W>) -> fmt::Result {
        match self {
            InaugurationFault::Refused(refused) => write!(f, "{refused}"),
            InaugurationFault::Barred => write!(f, "11 Held"),
        }
    }
}

impl fmt::Display for DirectoryFault {
    fn fmt<W: fmt::Write>(&self, f: &mut fmt::Formatter<W>) -> fmt::Result {
        match self {
            DirectoryFault::NoDirectory => write!(f, "{}", Refused::NoDirectory),
            DirectoryFault::Short => write!(f, "{Short}"),
        }
    }
}

impl fmt::Display for Busy {
    fn fmt<W: fmt::Write>(&self, f: &mut fmt::Formatter<W>) -> fmt::Result {
        write!(f, "14 Busy")
    }
}
