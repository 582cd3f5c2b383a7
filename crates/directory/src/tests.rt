//! The two-unit train, the row limit, and the questions.

use crate::*;
use report::Uuid;

const A: Uuid = Uuid { high: 0, low: 0xA };

const B: Uuid = Uuid { high: 0, low: 0xB };

/// Two units, of which the first is turned.
const TRAIN: [MetNode; 3] = [
    MetNode {
        uuid: A,
        mask: 3,
        way: Way::Turned,
    },
    MetNode {
        uuid: A,
        mask: 1,
        way: Way::Turned,
    },
    MetNode {
        uuid: B,
        mask: 1,
        way: Way::Forward,
    },
];

#[test]
fn rows_and_counter(rt: HostRuntime) {
    let directory = Directory::of(&TRAIN);
    assert_eq!(rt; directory.row_count(), 4);
    let last = Row {
        uuid: B,
        network: 1,
        subnet: 3,
        node: 3,
        way: Way::Forward,
    };
    assert_eq!(rt; directory.row(3), Some(last));
    assert_eq!(rt; directory.row(4), None);
    assert_eq!(rt; directory.counter(), 0x17F1_44A7);
}

#[test]
fn bytes(rt: HostRuntime) {
    let directory = Directory::of(&TRAIN);
    let mut out = [0xEE; 81];
    assert_eq!(rt; directory.write(&mut out), Ok(4));
    assert_eq!(rt; &out[15..20], [0xA, 1, 1, 1, 2].as_slice());
    assert_eq!(rt; &out[35..40], [0xA, 2, 2, 1, 2].as_slice());
    assert_eq!(rt; &out[55..60], [0xA, 1, 1, 2, 2].as_slice());
    assert_eq!(rt; &out[75..81], [0xB, 1, 3, 3, 1, 0xEE].as_slice());
    assert_eq!(rt; directory.write(&mut out[0..79]), Err(Short));
}

#[test]
fn questions(rt: HostRuntime) {
    let directory = Directory::of(&TRAIN);
    assert_eq!(rt; directory.node(1), Some((A, 2)));
    assert_eq!(rt; directory.node(2), Some((A, 1)));
    assert_eq!(rt; directory.node(4), None);
    assert_eq!(rt; directory.number(A, 2), Some(1));
    assert_eq!(rt; directory.number(B, 2), None);
    assert_eq!(rt; directory.subnet(A, 2), Some(2));
    assert_eq!(rt; directory.network(3), Some((B, 1)));
    assert!(rt; !directory.same(&Directory::none()));
}

/// 17 nodes of 8 networks each have 136 rows; the 128th is the last that fits.
#[test]
fn row_limit(rt: HostRuntime) {
    let directory = Directory::of(&[MetNode {
        uuid: A,
        mask: 0xFF,
        way: Way::Forward,
    }; 17]);
    assert_eq!(rt; directory.row_count(), 128);
    assert_eq!(rt; directory.node(16), Some((A, 16)));
    assert_eq!(rt; directory.node(17), None);
    assert_eq!(rt; directory.subnet(A, 8), Some(8));
}
