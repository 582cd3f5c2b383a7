use crate::*;

/// Two nodes, of which this one stands first; node 21 is on its side 1.
const ROW: [u32; 15] = [
    0x1000_0012,
    0x2000_0000,
    0x2000_0011,
    0x2000_0000,
    0x2000_0021,
    0x2000_0000,
    0x2000_0000,
    0x3000_0000,
    0x3000_0000,
    0x3000_0000,
    0x3000_0000,
    0x3000_000A,
    0x4000_0001,
    0x4000_0003,
    0,
];

const REPORT: Report = Report {
    mac: Mac(0x11),
    side1: Mac(0x21),
    side2: Mac(0),
    uuid: Uuid { high: 0, low: 0xA },
    position: 1,
    nodes: 2,
    masks: [1, 3, 0, 0],
};

/// One word of the row changed, and the place that the refusal then names.
const WRONG: [(usize, u32, usize); 24] = [
    (0, 0x2000_0012, 0),
    (0, 0x1000_0112, 0),
    (0, 0x1000_0010, 0),
    (0, 0x1000_0015, 0),
    (0, 0x1000_0002, 0),
    (0, 0x1000_0032, 0),
    (1, 0x1000_0000, 1),
    (1, 0x2100_0000, 1),
    (2, 0x2000_0000, 2),
    (3, 0x2100_0000, 3),
    (4, 0x3000_0021, 4),
    (5, 0x4000_0000, 5),
    (6, 0x2100_0000, 6),
    (7, 0x3001_0000, 7),
    (8, 0x2000_0000, 8),
    (9, 0x4000_0000, 9),
    (10, 0x0000_0000, 10),
    (11, 0x3000_0000, 11),
    (12, 0x4000_0000, 12),
    (12, 0x4000_0101, 12),
    (13, 0x4000_0004, 14),
    (13, 0x3000_0003, 13),
    (14, 1, 14),
    (0, 0x1000_0011, 13),
];

fn refused_at(words: &[u32]) -> Option<usize> {
    Report::read(words).err().map(|fault| fault.place())
}

#[test]
fn a_row_is_read_and_written_again(rt: HostRuntime) {
    let report = Report::read(&ROW).expect(&rt, "a report");
    assert_eq!(rt; report, REPORT);
    let mut out = [7u32; 16];
    assert_eq!(rt; report.write(&mut out), Ok(15));
    assert_eq!(rt; &out[0..15], &ROW[0..15]);
    assert_eq!(rt; out[15], 7, "what lies behind stays");
}

#[test]
fn each_wrong_word_is_named_by_its_place(rt: HostRuntime) {
    for (at, word, place) in WRONG {
        let mut row = ROW;
        if at < 15 {
            row[at] = word;
        }
        assert_eq!(rt; refused_at(&row), Some(place));
    }
}

#[test]
fn each_missing_word_is_named_by_the_length(rt: HostRuntime) {
    for length in 0..15usize {
        assert_eq!(rt; refused_at(&ROW[0..length]), Some(length));
    }
}

/// Each with one value outside its range.
const OUTSIDE: [Report; 12] = [
    Report {
        mac: Mac(0),
        ..REPORT
    },
    Report {
        mac: Mac(1 << 48),
        ..REPORT
    },
    Report {
        side1: Mac(1 << 48),
        ..REPORT
    },
    Report {
        side2: Mac(u64::MAX),
        ..REPORT
    },
    Report {
        uuid: Uuid { high: 0, low: 0 },
        ..REPORT
    },
    Report {
        position: 0,
        ..REPORT
    },
    Report {
        position: 3,
        ..REPORT
    },
    Report { nodes: 0, ..REPORT },
    Report { nodes: 5, ..REPORT },
    Report {
        masks: [1, 0, 0, 0],
        ..REPORT
    },
    Report {
        masks: [1, 3, 1, 0],
        ..REPORT
    },
    Report {
        masks: [1, 4, 0, 0],
        ..REPORT
    },
];

#[test]
fn a_value_outside_its_range_is_refused_before_a_short_buffer(rt: HostRuntime) {
    for report in OUTSIDE {
        let mut out = [7u32; 3];
        assert_eq!(rt; report.write(&mut out), Err(WriteFault::Field));
        assert_eq!(rt; out, [7u32; 3]);
    }
    let mut out = [7u32; 14];
    assert_eq!(rt; REPORT.write(&mut out), Err(WriteFault::Short));
    assert_eq!(rt; out, [7u32; 14]);
}

#[test]
fn crossed_neighbours(rt: HostRuntime) {
    for (side1, side2, crossed) in [
        (0x21, 0, false),
        (0, 0x21, false),
        (0x21, 0x31, false),
        (0, 0, false),
        (0x11, 0, true),
        (0, 0x11, true),
        (0x21, 0x21, true),
    ] {
        let mut report = REPORT;
        report.side1 = Mac(side1);
        report.side2 = Mac(side2);
        assert_eq!(rt; report.is_crossed(), crossed);
    }
}
