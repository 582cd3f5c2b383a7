use crate::*;
use addressing::Refused;
use node::{DirectoryFault, Node};
use report::{Mac, Report, Uuid};

/// What stands in free memory.
const FREE: Report = Report {
    mac: Mac(0),
    side1: Mac(0),
    side2: Mac(0),
    uuid: Uuid { high: 0, low: 0 },
    position: 0,
    nodes: 0,
    masks: [0; 4],
};

#[test]
fn every_hold_is_returned(rt: HostRuntime) {
    let mut memory = [FREE; 1];
    let mut node = Node::start(Mac(0x11), &mut memory);
    // One more than the holds that can be out.
    for _ in 0..17 {
        let mut out = [7u8; 20];
        let none = Err(ReadFault::Refused(DirectoryFault::NoDirectory));
        assert_eq!(rt; read_directory(&mut node, &mut out), none);
    }
    let none = Err(StatusFault::Refused(Refused::NoDirectory));
    assert_eq!(rt; read_status(&mut node, 1), none);
}
