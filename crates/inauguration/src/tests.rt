//! Worked examples: which reports give a directory, and which refusal each other set gives.

use crate::{Refused, inaugurate, tables};
use report::{Mac, Report};

/// A node of a consist of one or two nodes; its neighbours are on side 1 and on side 2.
fn told(mac: u64, sides: [u64; 2], uuid: u64, position: u8, nodes: u8) -> Report {
    let second = if nodes == 2 { 3 } else { 0 };
    tables::told(mac, sides, uuid, [position, nodes], [1, second])
}

/// The refusal, if there is one.
pub(crate) fn refused(own: u64, held: &[Report]) -> Option<Refused> {
    inaugurate(Mac(own), held).err()
}

#[test]
fn two_consists_give_a_directory(rt: HostRuntime) {
    let a = told(0x11, [0x21, 0], 0xA, 1, 2);
    let b = told(0x21, [0x11, 0], 0xB, 1, 1);
    assert_eq!(rt; refused(0x11, &[a, b]), None);
    let directory = inaugurate(Mac(0x11), &[a, b]).expect(&rt, "a directory");
    assert_eq!(rt; directory.counter(), 0x17F1_44A7);
}

#[test]
fn a_report_alone(rt: HostRuntime) {
    assert_eq!(rt;
        refused(0x11, &[told(0x11, [0x21, 0], 0xA, 1, 2)]),
        Some(Refused::Loose(Mac(0x11)))
    );
    assert_eq!(rt;
        refused(0x31, &[told(0x11, [0, 0], 0xA, 1, 2)]),
        Some(Refused::Mute)
    );
    assert_eq!(rt; refused(0x11, &[told(0x11, [0, 0], 0xA, 1, 2)]), None);
}

#[test]
fn a_ring_and_two_chains_are_split(rt: HostRuntime) {
    let ring = [
        told(0x11, [0x31, 0x21], 0xA, 1, 1),
        told(0x21, [0x11, 0x31], 0xB, 1, 1),
        told(0x31, [0x21, 0x11], 0xC, 1, 1),
    ];
    assert_eq!(rt; refused(0x11, &ring), Some(Refused::Split));
    let apart = [told(0x11, [0, 0], 0xA, 1, 1), told(0x21, [0, 0], 0xB, 1, 1)];
    assert_eq!(rt; refused(0x11, &apart), Some(Refused::Split));
}

#[test]
fn mixed_ways_and_a_uuid_that_comes_back(rt: HostRuntime) {
    // Both face each other with side 1, so one stands forward and one turned.
    let facing = [
        told(0x11, [0x21, 0], 0xA, 1, 2),
        told(0x21, [0x11, 0], 0xA, 2, 2),
    ];
    assert_eq!(rt; refused(0x11, &facing), Some(Refused::Mixed));
    let back = [
        told(0x11, [0, 0x21], 0xA, 1, 2),
        told(0x21, [0x11, 0x31], 0xB, 1, 1),
        told(0x31, [0x21, 0], 0xA, 2, 2),
    ];
    assert_eq!(rt; refused(0x11, &back), Some(Refused::Mixed));
}
