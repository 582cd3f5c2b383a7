//! The calls made on two nodes, played once more on two fresh nodes.

use any_plan::AnyPlan;
use backbone::{Started, out_after};
use directory::limits::BYTES;
use node::{Answer, Call, Player, Recorded};
use replies::tell_answer;
use report::{Mac, Report};
use std::alloc::{AllocError, Global};
use std::io;

/// What a record is before its call is played.
const UNPLAYED: Recorded = Recorded {
    answer: Answer::Returned(false),
    length: 0,
    output: [0; BYTES],
};

/// What a node needs to be played once more.
#[derive(Drop)]
struct Again<'a> {
    mac: Mac,
    records: Vec<Recorded>,
    output: Vec<u8>,
    memory: Vec<Report>,
    calls: Vec<Call<'a>>,
}

impl<'a> Again<'a> {
    fn of(heap: Global, started: &'a Started<'_>) -> Result<Again<'a>, AllocError> {
        Ok(Again {
            mac: started.mac,
            records: vec![in heap; UNPLAYED; started.made.len()]?,
            output: vec![in heap; 0; BYTES]?,
            memory: vec![in heap; Report::default(); started.places]?,
            calls: started
                .made
                .iter()
                .map(|made| made.call.call())
                .collect(heap)?,
        })
    }

    fn player(&mut self) -> Player<'_> {
        let mac = self.mac;
        Player {
            records: self.records.as_mut_slice(),
            output: self.output.as_mut_slice(),
            mac,
            memory: self.memory.as_mut_slice(),
            calls: self.calls.as_slice(),
        }
    }
}

/// Plays the calls of two nodes once more, and tells each answer and whether it is the one before.
pub fn play_again(
    rt: &HostRuntime,
    plan: &AnyPlan,
    one: &Started<'_>,
    other: &Started<'_>,
) -> io::Result<()> {
    let mut again = Again::of(rt.alloc(), one)?;
    let mut other_again = Again::of(rt.alloc(), other)?;
    node::rehearse(plan, again.player(), other_again.player());
    let same = tell_records(rt, one, again.records.as_slice())?;
    let other_same = tell_records(rt, other, other_again.records.as_slice())?;
    if same && other_same {
        println!(rt; "rehearse: every answer is the one given before")
    } else {
        println!(rt; "rehearse: not every answer is the one given before")
    }
}

/// Tells what was recorded of a node, and answers whether each answer is the one given before.
fn tell_records(
    rt: &HostRuntime,
    started: &Started<'_>,
    recorded: &[Recorded],
) -> io::Result<bool> {
    let mac = started.mac;
    println!(rt; "rehearse: node {mac}")?;
    let mut out: u64 = 0;
    let mut all = true;
    for (record, before) in recorded.iter().zip(started.made.iter()) {
        out = out_after(out, record.answer);
        tell_answer(rt, "  ", record.answer, out, &record.output)?;
        if record.answer != before.answer {
            println!(rt; "    another answer than before")?;
            all = false;
        }
    }
    Ok(all)
}
