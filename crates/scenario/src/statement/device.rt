//! Devices: `address`.

use crate::complaint::Complaint;
use crate::words::Words;
use addressing::Device;

pub fn device<'a>(words: &mut Words<'a>) -> Result<Device, Complaint<'a>> {
    match words.expect("host or node")? {
        "host" => Ok(Device::Host {
            uuid: words.uuid()?,
            network: words.small("a network")?,
            host: words.decimal("a host", 65535)? as u16,
        }),
        "node" => Ok(Device::Node {
            uuid: words.uuid()?,
            position: words.small("a position")?,
        }),
        other => Err(Complaint::NotADevice(other)),
    }
}
