use crate::*;
use any_plan::AnyPlan;
use node::Answer;
use plan::Train;
use report::Mac;
use std::test::Fail;

/// The report of a lone node in a consist of its own.
const LONE: [u32; 14] = [
    0x1000_0011,
    0x2000_0000,
    0x2000_0011,
    0x2000_0000,
    0x2000_0000,
    0x2000_0000,
    0x2000_0000,
    0x3000_0000,
    0x3000_0000,
    0x3000_0000,
    0x3000_0000,
    0x3000_000A,
    0x4000_0001,
    0,
];

#[test]
fn a_node_starts_is_called_and_remembers(rt: HostRuntime) -> Result<(), Fail> {
    let heap = rt.alloc();
    let plan = AnyPlan::Train(Train { backbone: 0 });
    let mut words = Vec::new(heap);
    words.extend_from_slice(&LONE)?;
    let mut memory = memory(heap)?;
    let mut nodes = Nodes::none(heap, memory.as_mut_slice());
    let started = nodes.start(heap, Mac(0x11), 4).is_ok();
    let again = nodes.start(heap, Mac(0x11), 4).is_ok();
    let taken = nodes.make(&plan, OwnedCall::Take(words), &mut []).ok();
    let inaugurated = nodes.make(&plan, OwnedCall::Inaugurate, &mut []).is_ok();
    let held = nodes.make(&plan, OwnedCall::Hold, &mut []).ok();
    let oldest = nodes.oldest_hold().ok();
    let rows = match nodes.get(Mac(0x11)) {
        Ok(node) => node.rows(heap).map_or(0, |rows| rows.len()),
        Err(_) => 0,
    };
    nodes.end();
    assert_eq!(rt; (started, again), (true, false));
    assert_eq!(rt; taken, Some((Answer::Taken(Ok(1)), 0)));
    assert!(rt; inaugurated);
    assert_eq!(rt; held, Some((Answer::Granted(Ok(Mac(0x11))), 1)));
    assert_eq!(rt; oldest, Some(Mac(0x11)));
    assert_eq!(rt; rows, 1);
    Ok(())
}
