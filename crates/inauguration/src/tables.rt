//! Worked trains: the directory that each gives, or how its reports are refused.

use crate::tests::refused;
use crate::{Refused, inaugurate};
use directory::Directory;
use report::{Mac, Report, Uuid};
use std::array;
use std::process::Abort;

/// The report of a node with these neighbours on side 1 and side 2, at position 1 of 2, say, of a consist with these masks.
pub(crate) fn told(mac: u64, sides: [u64; 2], uuid: u64, place: [u8; 2], masks: [u8; 2]) -> Report {
    let [side1, side2] = sides;
    let [position, nodes] = place;
    let [first, second] = masks;
    Report {
        mac: Mac(mac),
        side1: Mac(side1),
        side2: Mac(side2),
        uuid: Uuid { high: 0, low: uuid },
        position,
        nodes,
        masks: [first, second, 0, 0],
    }
}

/// The report of the only node of a consist with one network.
fn only(mac: u64, sides: [u64; 2], uuid: u64) -> Report {
    told(mac, sides, uuid, [1, 1], [1, 0])
}

/// Row `i` in the bytes of a directory ends with this low byte of the UUID and this word.
fn row_ends_with(rt: &impl Abort, bytes: &[u8], i: usize, end: [u8; 5]) {
    let row = bytes.get(20 * i.min(127) + 15..20 * i.min(127) + 20);
    assert_eq!(rt; row.expect(rt, "a row"), end.as_slice());
}

#[test]
fn two_units_give_one_directory_at_both_nodes(rt: HostRuntime) {
    let a = told(0x11, [0x21, 0], 0xA, [1, 2], [1, 3]);
    let b = only(0x21, [0x11, 0], 0xB);
    for (own, held) in [
        (0x11, [a, b]),
        (0x21, [a, b]),
        (0x11, [b, a]),
        (0x21, [b, a]),
    ] {
        let directory = inaugurate(Mac(own), &held).expect(&rt, "a directory");
        let mut bytes = [0; 80];
        assert_eq!(rt; directory.row_count(), 4);
        assert!(rt; directory.write(&mut bytes).is_ok());
        row_ends_with(&rt, &bytes, 0, [0xA, 1, 1, 1, 2]);
        row_ends_with(&rt, &bytes, 1, [0xA, 2, 2, 1, 2]);
        row_ends_with(&rt, &bytes, 2, [0xA, 1, 1, 2, 2]);
        row_ends_with(&rt, &bytes, 3, [0xB, 1, 3, 3, 1]);
        assert_eq!(rt; directory.counter(), 0x17F1_44A7);
    }
}

#[test]
fn a_lone_consist_is_read_forward(rt: HostRuntime) {
    let first = told(0x11, [0, 0x12], 0xA, [1, 2], [1, 3]);
    let second = told(0x12, [0x11, 0], 0xA, [2, 2], [1, 3]);
    for held in [[first, second], [second, first]] {
        let directory = inaugurate(Mac(0x11), &held).expect(&rt, "a directory");
        let mut bytes = [0; 60];
        assert_eq!(rt; directory.row_count(), 3);
        assert!(rt; directory.write(&mut bytes).is_ok());
        row_ends_with(&rt, &bytes, 0, [0xA, 1, 1, 1, 1]);
        row_ends_with(&rt, &bytes, 1, [0xA, 1, 1, 2, 1]);
        row_ends_with(&rt, &bytes, 2, [0xA, 2, 2, 2, 1]);
    }
}

#[test]
fn a_report_alone(rt: HostRuntime) {
    let alone = told(0x11, [0, 0], 0xA, [1, 2], [1, 3]);
    let lost = told(0x11, [0x21, 0], 0xA, [1, 2], [1, 3]);
    let cases = [
        (0x11, alone, None),
        (0x31, alone, Some(Refused::Mute)),
        (0x11, lost, Some(Refused::Loose(Mac(0x11)))),
        // The own report is looked for first.
        (0x31, lost, Some(Refused::Mute)),
    ];
    for (own, report, fault) in cases {
        assert_eq!(rt; refused(own, &[report]), fault);
    }
}

#[test]
fn three_reports_are_one_chain_or_not(rt: HostRuntime) {
    let a = only(0x11, [0, 0x21], 0xA);
    let b = only(0x21, [0x11, 0x31], 0xB);
    let c = only(0x31, [0x21, 0], 0xC);
    let cases = [
        (a, b, c, None),
        // The node in the middle does not name the last.
        (
            a,
            only(0x21, [0x11, 0], 0xB),
            c,
            Some(Refused::Loose(Mac(0x31))),
        ),
        // A ring.
        (
            only(0x11, [0x31, 0x21], 0xA),
            b,
            only(0x31, [0x21, 0x11], 0xC),
            Some(Refused::Split),
        ),
        // Two chains.
        (
            a,
            only(0x21, [0x11, 0], 0xB),
            only(0x31, [0, 0], 0xC),
            Some(Refused::Split),
        ),
    ];
    for (first, second, third, fault) in cases {
        assert_eq!(rt; refused(0x11, &[first, second, third]), fault);
    }
}

#[test]
fn three_reports_fit_a_line_or_not(rt: HostRuntime) {
    let a = told(0x11, [0, 0x21], 0xA, [1, 2], [1, 3]);
    let c = only(0x31, [0x21, 0], 0xC);
    let cases = [
        (a, told(0x21, [0x11, 0x31], 0xA, [2, 2], [1, 3]), c, None),
        // The two nodes of a consist stand one forward and one turned.
        (
            a,
            told(0x21, [0x31, 0x11], 0xA, [2, 2], [1, 3]),
            c,
            Some(Refused::Mixed),
        ),
        // They have equal positions.
        (
            a,
            told(0x21, [0x11, 0x31], 0xA, [1, 2], [1, 3]),
            c,
            Some(Refused::Mixed),
        ),
        // They tell different masks.
        (
            a,
            told(0x21, [0x11, 0x31], 0xA, [2, 2], [1, 1]),
            c,
            Some(Refused::Mixed),
        ),
        // A UUID comes back after another consist.
        (
            a,
            only(0x21, [0x11, 0x31], 0xB),
            told(0x31, [0x21, 0], 0xA, [2, 2], [1, 3]),
            Some(Refused::Mixed),
        ),
    ];
    for (first, second, third, fault) in cases {
        assert_eq!(rt; refused(0x11, &[first, second, third]), fault);
    }
}

/// The directory at the node with this MAC; a fresh one where it is refused.
fn directory_at(own: u64, held: &[Report]) -> Directory {
    inaugurate(Mac(own), held).unwrap_or(Directory::none())
}

/// The consist with the smaller UUID has the larger MAC at its end, until the node at its end 1 wakes up.
#[test]
fn a_late_node_changes_nothing(rt: HostRuntime) {
    let end = told(0x01, [0, 0x90], 0x5, [1, 2], [1, 3]);
    let awake = told(0x90, [0x01, 0x10], 0x5, [2, 2], [1, 3]);
    let first = told(0x90, [0, 0x10], 0x5, [2, 2], [1, 3]);
    let other = only(0x10, [0x90, 0], 0xA);
    let before = directory_at(0x10, &[first, other]);
    let mut bytes = [0; 80];
    assert_eq!(rt; before.row_count(), 4);
    assert!(rt; before.write(&mut bytes).is_ok());
    row_ends_with(&rt, &bytes, 0, [0x5, 1, 1, 1, 1]);
    row_ends_with(&rt, &bytes, 3, [0xA, 1, 3, 3, 1]);
    assert!(rt; before.same(&directory_at(0x90, &[first, other])));
    for own in [0x01, 0x10, 0x90] {
        assert!(rt; before.same(&directory_at(own, &[other, awake, end])));
    }
}

/// The report of the first node of a consist, forward, with so many nodes of one mask; the MAC to its left is one less.
fn in_row(mac: u64, right: u64, consist: (u8, u8)) -> Report {
    let (nodes, mask) = consist;
    let masks = match nodes {
        4 => [mask; 4],
        3 => [mask, mask, mask, 0],
        _ => [mask, 0, 0, 0],
    };
    Report {
        nodes,
        masks,
        ..only(mac, [mac.saturating_sub(1), right], mac)
    }
}

/// The refusal of so many such consists and a last one, if there is one.
fn refused_row(count: usize, each: (u8, u8), last: (u8, u8)) -> Option<Refused> {
    let mut held: [Report; 63] = array::from_fn(|i| in_row(i as u64 + 1, i as u64 + 2, each));
    let count = count.min(62);
    held[count] = in_row(count as u64 + 1, 0, last);
    refused(1, &held[0..count + 1])
}

#[test]
fn each_limit_is_held(rt: HostRuntime) {
    let cases = [
        // 64 and 63 nodes
        (15, (4, 1), (4, 1), Some(Refused::Long)),
        (15, (4, 1), (3, 1), None),
        // 64 and 63 networks
        (7, (1, 0xFF), (1, 0xFF), Some(Refused::Long)),
        (7, (1, 0xFF), (1, 0x7F), None),
        // 129 and 128 mask bits
        (4, (4, 0xFF), (1, 1), Some(Refused::Long)),
        (3, (4, 0xFF), (4, 0xFF), None),
    ];
    for (count, each, last, fault) in cases {
        assert_eq!(rt; refused_row(count, each, last), fault);
    }
}
