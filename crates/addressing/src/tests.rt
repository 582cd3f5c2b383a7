use crate::*;
use directory::{Directory, MetNode, Way};
use plan::{Home, Train};
use report::Uuid;

const A: Uuid = Uuid { high: 0, low: 0xA };

/// A turned unit of two nodes, of which the first that is met serves two networks.
const UNIT: [MetNode; 2] = [
    MetNode {
        uuid: A,
        mask: 3,
        way: Way::Turned,
    },
    MetNode {
        uuid: A,
        mask: 1,
        way: Way::Turned,
    },
];

const HOME: Home<Train> = Home {
    subnet: 1,
    below: Train { backbone: 0 },
};

const fn host(network: u8, host: u16) -> Device {
    Device::Host {
        uuid: A,
        network,
        host,
    }
}

const fn node(position: u8) -> Device {
    Device::Node { uuid: A, position }
}

#[test]
fn each_device_has_an_address_of_its_own(rt: HostRuntime) {
    let directory = Directory::of(&UNIT);
    for (device, at) in [
        (host(1, 7), 0x0a00_0007),
        (host(2, 300), 0x0a80_812c),
        (node(2), 0x0a80_0001),
        (node(1), 0x0a80_0002),
    ] {
        assert_eq!(rt; address(&directory, &HOME, device), Ok(at));
        assert_eq!(rt; trace(&directory, &HOME, at), Ok(device));
    }
}

#[test]
fn what_is_not_there_is_refused(rt: HostRuntime) {
    let directory = Directory::of(&UNIT);
    for device in [host(3, 7), host(2, 0), host(2, 16384), node(3)] {
        assert_eq!(rt; address(&directory, &HOME, device), Err(Refused::Absent));
    }
    // The last are node 3, host 257 of subnet 0 and a host of subnet 3.
    for at in [0, 0x0a00_0000, 0x0a80_0003, 0x0a80_0101, 0x0a80_c001] {
        assert_eq!(rt; trace(&directory, &HOME, at), Err(Refused::Absent));
    }
    let none = Directory::none();
    assert_eq!(rt; address(&none, &HOME, node(1)), Err(Refused::NoDirectory));
    assert_eq!(rt; trace(&none, &HOME, 0), Err(Refused::NoDirectory));
}
