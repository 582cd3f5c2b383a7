use crate::*;
use directory::Way;
use report::{Mac, Uuid};

const ASLEEP: Node = Node { mask: 3, mac: None };

const A: Consist = Consist {
    uuid: Uuid { high: 0, low: 0xA },
    way: Way::Turned,
    count: 2,
    nodes: [
        Node {
            mask: 1,
            mac: Some(Mac(0x11)),
        },
        ASLEEP,
        ASLEEP,
        ASLEEP,
    ],
};

const B: Consist = Consist {
    uuid: Uuid { high: 0, low: 0xB },
    way: Way::Forward,
    count: 1,
    nodes: [
        Node {
            mask: 1,
            mac: Some(Mac(0x21)),
        },
        ASLEEP,
        ASLEEP,
        ASLEEP,
    ],
};

const OF_A: Report = Report {
    mac: Mac(0x11),
    side1: Mac(0x21),
    side2: Mac(0),
    uuid: Uuid { high: 0, low: 0xA },
    position: 1,
    nodes: 2,
    masks: [1, 3, 0, 0],
};

const OF_B: Report = Report {
    mac: Mac(0x21),
    side1: Mac(0x11),
    side2: Mac(0),
    uuid: Uuid { high: 0, low: 0xB },
    position: 1,
    nodes: 1,
    masks: [1, 0, 0, 0],
};

fn checked(consists: &[Consist]) -> Result<(), LineFault> {
    Composition { consists }.check()
}

#[test]
fn two_consists_are_a_line_and_report(rt: HostRuntime) {
    let consists = [A, B];
    let train = Composition {
        consists: &consists,
    };
    assert_eq!(rt; train.check(), Ok(()));
    let mut out = [OF_B, OF_B, OF_A];
    assert_eq!(rt; train.reports(&mut out), Ok(2));
    assert_eq!(rt; out, [OF_A, OF_B, OF_A]);
    let mut short = [OF_B];
    assert_eq!(rt; train.reports(&mut short), Err(Short));
    assert_eq!(rt; short, [OF_B]);
}

/// A second consist, and the rule that it breaks behind A.
const WRONG: [(Consist, ConsistRule); 6] = [
    (
        Consist {
            uuid: Uuid { high: 0, low: 0 },
            ..B
        },
        ConsistRule::NoUuid,
    ),
    (Consist { count: 5, ..B }, ConsistRule::NodeCount),
    (
        Consist {
            count: 2,
            nodes: [ASLEEP, Node { mask: 0, mac: None }, ASLEEP, ASLEEP],
            ..B
        },
        ConsistRule::NoNetwork(2),
    ),
    (
        Consist {
            nodes: [
                Node {
                    mask: 4,
                    mac: Some(Mac(0x21)),
                },
                ASLEEP,
                ASLEEP,
                ASLEEP,
            ],
            ..B
        },
        ConsistRule::Gap,
    ),
    (
        Consist {
            nodes: [ASLEEP; 4],
            ..B
        },
        ConsistRule::NoneAwake,
    ),
    (
        Consist {
            nodes: [
                Node {
                    mask: 1,
                    mac: Some(Mac(1 << 48)),
                },
                ASLEEP,
                ASLEEP,
                ASLEEP,
            ],
            ..B
        },
        ConsistRule::WrongMac(1),
    ),
];

#[test]
fn each_rule_on_a_consist_is_named_with_its_place(rt: HostRuntime) {
    for (wrong, rule) in WRONG {
        let consists = [A, wrong];
        let fault = ConsistFault { place: 1, rule };
        assert_eq!(rt; checked(&consists), Err(LineFault::InConsist(fault)));
    }
}

#[test]
fn each_rule_on_the_line_is_named(rt: HostRuntime) {
    let twice = [A, A];
    let same_mac = [A, Consist { uuid: B.uuid, ..A }];
    assert_eq!(rt; checked(&twice[0..0]), Err(LineFault::NoConsist));
    assert_eq!(rt; checked(&twice), Err(LineFault::UuidTwice(1)));
    assert_eq!(rt; checked(&same_mac), Err(LineFault::MacTwice(1)));
}

/// So many consists with these nodes and masks.
fn check_row(count: usize, nodes: u8, mask: u8) -> Result<(), LineFault> {
    let mut row = [B; 64];
    for i in 0..64usize {
        row[i].uuid.low = i as u64 + 1;
        row[i].count = nodes;
        row[i].nodes = [Node { mask, mac: None }; 4];
        row[i].nodes[0].mac = Some(Mac(i as u64 + 1));
    }
    checked(&row[0..count.min(64)])
}

#[test]
fn each_limit_is_named(rt: HostRuntime) {
    assert_eq!(rt; check_row(63, 1, 1), Ok(()));
    assert_eq!(rt; check_row(64, 1, 1), Err(LineFault::Nodes));
    assert_eq!(rt; check_row(8, 1, 0xFF), Err(LineFault::Networks));
    assert_eq!(rt; check_row(4, 4, 0xFF), Ok(()));
    assert_eq!(rt; check_row(5, 4, 0xFF), Err(LineFault::Bits));
}
