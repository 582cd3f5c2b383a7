//! Devices, and refused questions about them, as they are told.

use crate::device::{Device, Refused};
use std::fmt;

impl fmt::Display for Device {
    fn fmt<W: fmt::Write>(&self, f: &mut fmt::Formatter<W>) -> fmt::Result {
        match self {
            Device::Host {
                uuid,
                network,
                host,
            } => write!(f, "host {uuid} {network} {host}"),
            Device::Node { uuid, position } => write!(f, "node {uuid} {position}"),
        }
    }
}

impl fmt::Display for Refused {
    fn fmt<W: fmt::Write>(&self, f: &mut fmt::Formatter<W>) -> fmt::Result {
        match self {
            Refused::NoDirectory => write!(f, "12 None"),
            Refused::Absent => write!(f, "13 Absent"),
        }
    }
}
