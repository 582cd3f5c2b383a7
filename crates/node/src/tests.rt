//! Worked examples: trains of one and two units, and each refusal.

use crate::*;
use addressing::{Device, Refused};
use plan::{Plan, Train};
use report::{Mac, Report, Uuid, WordFault};

const A: Uuid = Uuid { high: 0, low: 0xA };

const B: Uuid = Uuid { high: 0, low: 0xB };

/// A unit of two nodes, of which the one at position 1 reports; B is on its side 1.
const REPORT_A: [u32; 15] = [
    0x1000_0012,
    0x2000_0000,
    0x2000_0011,
    0x2000_0000,
    0x2000_0021,
    0x2000_0000,
    0x2000_0000,
    0x3000_0000,
    0x3000_0000,
    0x3000_0000,
    0x3000_0000,
    0x3000_000A,
    0x4000_0001,
    0x4000_0003,
    0,
];

/// A unit of one node; A is on its side 1.
const REPORT_B: [u32; 14] = [
    0x1000_0011,
    0x2000_0000,
    0x2000_0021,
    0x2000_0000,
    0x2000_0011,
    0x2000_0000,
    0x2000_0000,
    0x3000_0000,
    0x3000_0000,
    0x3000_0000,
    0x3000_0000,
    0x3000_000B,
    0x4000_0001,
    0,
];

/// Both units coupled.
const COUNTER: u32 = 0x17F1_44A7;

/// What stands in free memory.
const FREE: Report = Report {
    mac: Mac(0),
    side1: Mac(0),
    side2: Mac(0),
    uuid: Uuid { high: 0, low: 0 },
    position: 0,
    nodes: 0,
    masks: [0; 4],
};

/// The report of a unit of one node, with its networks and its neighbours.
fn unit(mac: u32, side1: u32, side2: u32, uuid: u32, mask: u32) -> [u32; 14] {
    let mut words = REPORT_B;
    words[2] = 0x2000_0000 | mac;
    words[4] = 0x2000_0000 | side1;
    words[6] = 0x2000_0000 | side2;
    words[11] = 0x3000_0000 | uuid;
    words[12] = 0x4000_0000 | mask;
    words
}

/// What the node 11 answers to an inauguration where it holds these reports.
fn inaugurated(reports: &[[u32; 14]]) -> Result<u32, InaugurationFault> {
    let mut memory = [FREE; 8];
    let mut node = Node::start(Mac(0x11), &mut memory);
    for words in reports {
        let _ = node.take(words);
    }
    node.inaugurate()
}

fn refused(fault: inauguration::Refused) -> Result<u32, InaugurationFault> {
    Err(InaugurationFault::Refused(fault))
}

#[test]
fn both_nodes_of_a_train_have_its_directory(rt: HostRuntime) {
    for mac in [0x11, 0x21] {
        let mut memory = [FREE; 4];
        let mut node = Node::start(Mac(mac), &mut memory);
        assert_eq!(rt; node.take(&REPORT_B), Ok(1));
        assert_eq!(rt; node.take(&REPORT_A), Ok(2));
        assert_eq!(rt; node.inaugurate(), Ok(COUNTER));
        let mut out = [7u8; 81];
        assert_eq!(rt; node.directory(&mut out), Ok(4));
        for (i, unit, word) in [
            (0usize, 0xA, [1u8, 1, 1, 2]),
            (1, 0xA, [2, 2, 1, 2]),
            (2, 0xA, [1, 1, 2, 2]),
            (3, 0xB, [1, 3, 3, 1]),
        ] {
            let row = &out[20 * i..20 * i + 20];
            assert_eq!(rt; row[15], unit);
            assert_eq!(rt; &row[16..20], &word[..]);
        }
        assert_eq!(rt; out[80], 7, "what lies behind stays");
    }
}

#[test]
fn a_unit_wakes_late_and_falls_silent(rt: HostRuntime) {
    let mut memory = [FREE; 2];
    let mut node = Node::start(Mac(0x11), &mut memory);
    let alone = unit(0x11, 0, 0, 0xA, 1);
    assert_eq!(rt; node.take(&alone), Ok(1));
    assert_eq!(rt; node.inaugurate().is_ok(), true);
    assert_eq!(rt; node.take(&REPORT_A), Ok(1), "in place of the earlier one");
    let loose = Err(InaugurationFault::Refused(inauguration::Refused::Loose(Mac(0x11))));
    assert_eq!(rt; node.inaugurate(), loose);
    assert_eq!(rt; node.take(&REPORT_B), Ok(2));
    assert_eq!(rt; node.inaugurate(), Ok(COUNTER));
    assert_eq!(rt; node.silence(Mac(0x21)), Ok(1));
    assert_eq!(rt; node.silence(Mac(0x21)), Err(Unknown));
    assert_eq!(rt; node.inaugurate(), loose);
}

#[test]
fn reports_that_are_not_taken(rt: HostRuntime) {
    let mut memory = [FREE; 2];
    let mut node = Node::start(Mac(0x11), &mut memory);
    let garbled = Err(TakeFault::Garbled(WordFault::Missing(14)));
    assert_eq!(rt; node.take(&REPORT_A[..14]), garbled);
    assert_eq!(rt;
        node.take(&unit(0x11, 0x11, 0, 0xA, 1)),
        Err(TakeFault::Crossed)
    );
    assert_eq!(rt; node.take(&REPORT_A), Ok(1));
    assert_eq!(rt; node.take(&REPORT_B), Ok(2));
    assert_eq!(rt; node.take(&unit(0x31, 0, 0, 0xC, 1)), Err(TakeFault::Full));
    assert_eq!(rt; node.take(&REPORT_B), Ok(2), "its MAC is not new");
}

#[test]
fn no_more_than_63_reports(rt: HostRuntime) {
    let mut memory = [FREE; 64];
    let mut node = Node::start(Mac(1), &mut memory);
    for mac in 1..=63u32 {
        assert_eq!(rt; node.take(&unit(mac, 0, 0, mac, 1)), Ok(mac as usize));
    }
    assert_eq!(rt; node.take(&unit(64, 0, 0, 64, 1)), Err(TakeFault::Full));
}

#[test]
fn reports_that_give_no_directory(rt: HostRuntime) {
    let long = [
        unit(0x11, 0, 0x12, 1, 0xFF),
        unit(0x12, 0x11, 0x13, 2, 0xFF),
        unit(0x13, 0x12, 0x14, 3, 0xFF),
        unit(0x14, 0x13, 0x15, 4, 0xFF),
        unit(0x15, 0x14, 0x16, 5, 0xFF),
        unit(0x16, 0x15, 0x17, 6, 0xFF),
        unit(0x17, 0x16, 0x18, 7, 0xFF),
        unit(0x18, 0x17, 0, 8, 0xFF),
    ];

    let ring = [
        unit(0x11, 0x13, 0x12, 1, 1),
        unit(0x12, 0x11, 0x13, 2, 1),
        unit(0x13, 0x12, 0x11, 3, 1),
    ];

    let same_uuid = [unit(0x11, 0, 0x12, 1, 1), unit(0x12, 0x11, 0, 1, 1)];
    assert_eq!(rt;
        inaugurated(&long[1..2]),
        refused(inauguration::Refused::Mute)
    );
    assert_eq!(rt;
        inaugurated(&long[..2]),
        refused(inauguration::Refused::Loose(Mac(0x12)))
    );
    assert_eq!(rt; inaugurated(&ring), refused(inauguration::Refused::Split));
    assert_eq!(rt;
        inaugurated(&same_uuid),
        refused(inauguration::Refused::Mixed)
    );
    assert_eq!(rt; inaugurated(&long), refused(inauguration::Refused::Long));
}

#[test]
fn a_hold_bars_a_change(rt: HostRuntime) {
    let mut memory = [FREE; 2];
    let mut node = Node::start(Mac(0x11), &mut memory);
    assert_eq!(rt; node.take(&REPORT_A), Ok(1));
    assert_eq!(rt; node.take(&REPORT_B), Ok(2));
    let hold = node.hold().expect(&rt, "a hold");
    let barred = node.inaugurate();
    let back = node.give_back(hold);
    assert_eq!(rt; barred, Err(InaugurationFault::Barred));
    assert_eq!(rt; back, true);
    assert_eq!(rt; node.inaugurate(), Ok(COUNTER));
    let hold = node.hold().expect(&rt, "a hold");
    let again = node.inaugurate();
    assert_eq!(rt; node.give_back(hold), true);
    assert_eq!(rt; again, Ok(COUNTER), "the directory found is in force");
}

#[test]
fn sixteen_holds_are_out(rt: HostRuntime) {
    let mut memory = [FREE; 1];
    let mut other_memory = [FREE; 1];
    let mut node = Node::start(Mac(0x11), &mut memory);
    let mut other = Node::start(Mac(0x21), &mut other_memory);
    for _ in 0..16 {
        let hold = node.hold().expect(&rt, "a hold");
        assert_eq!(rt; other.give_back(hold), false);
    }
    match node.hold() {
        Ok(hold) => assert_eq!(rt; node.give_back(hold), false),
        Err(fault) => assert_eq!(rt; fault, Busy),
    }
}

#[test]
fn questions_before_and_after_an_inauguration(rt: HostRuntime) {
    let mut memory = [FREE; 2];
    let mut node = Node::start(Mac(0x11), &mut memory);
    let plan = Train { backbone: 0 };
    let host = Device::Host {
        uuid: B,
        network: 1,
        host: 7,
    };
    let mut out = [7u8; 79];
    assert_eq!(rt; node.directory(&mut out), Err(DirectoryFault::NoDirectory));
    assert_eq!(rt; node.status(1), Err(Refused::NoDirectory));
    assert_eq!(rt; node.address(&plan, host), Err(Refused::NoDirectory));
    assert_eq!(rt; node.take(&REPORT_A), Ok(1));
    assert_eq!(rt; node.take(&REPORT_B), Ok(2));
    assert_eq!(rt; node.inaugurate(), Ok(COUNTER));
    assert_eq!(rt; node.directory(&mut out), Err(DirectoryFault::Short));
    for (number, uuid, position, presence) in [
        (1, A, 2, Presence::Silent),
        (2, A, 1, Presence::Awake),
        (3, B, 1, Presence::Awake),
    ] {
        let status = Status {
            uuid,
            position,
            presence,
        };
        assert_eq!(rt; node.status(number), Ok(status));
    }
    assert_eq!(rt; node.status(4), Err(Refused::Absent));
    assert_eq!(rt; node.address(&plan, host), Ok(0x0a80_c007));
    assert_eq!(rt; node.trace(&plan, 0x0a80_c007), Ok(host));
    assert_eq!(rt; node.trace(&plan, 0x0a81_0007), Err(Refused::Absent));
}
