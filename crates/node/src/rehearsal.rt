//! Two fresh nodes are played under one plan, each with a list of calls of its own, and what they answer is recorded.

ghost use Rattle.std.specs.Prelude.{◌≡◌, ◌≤◌, length, take, drop};
ghost use Rattle.runs.specs.Calls.{Step, event};
ghost use Rattle.runs.specs.Promise.{RightAndAgreeing};
ghost use Rattle.runs.specs.WorkedCases.{WorkedCases};
ghost use Rattle.node.specs.Seen.{seen};
ghost use Rattle.node.specs.Recorded.{calling, answer_told, output_of, used, Plays, played, PlayedSo};

use crate::call::{Answer, Call};
use crate::node::Node;
use directory::limits::BYTES;
use plan::Plan;
use report::{Mac, Report};

/// What is recorded of a call: its answer, and the output buffer after it, of which so many bytes are its own.
#[derive(Clone, Copy)]
pub struct Recorded {
    pub answer: Answer,
    // An array with its length beside it: a record is `Copy`, which an `ArrayVec` is not.
    pub length: usize,
    pub output: [u8; BYTES],
}

/// A node that is played: room for what is recorded, its output buffer, where it starts from, and its calls.
pub struct Player<'a> {
    pub records: &'a mut [Recorded],
    pub output: &'a mut [u8],
    pub mac: Mac,
    pub memory: &'a mut [Report],
    pub calls: &'a [Call<'a>],
}

/// A copy of the bytes, at the front of as many as a record has.
fn copied(bytes: &[u8]) -> [u8; BYTES]
    requires { length bytes.now ≤ 2560 }
    ensures { take (length bytes.now) result ≡ bytes.now }
{
    let mut copy = [0; BYTES];
    copy[..bytes.len()].copy_from_slice(bytes);
    copy
}

impl Node<'_> {
    /// Makes the call, and records it.
    fn record<P: Plan>(&mut self, plan: &P, call: Call<'_>, out: &mut [u8]) -> Recorded
        requires { length out.old ≤ 2560 }
        ensures step { Step (P.means plan.now) (seen self.old) (event (calling call.entry) (answer_told result.answer) out.old out.new) (seen self.new) }
        ensures output { output_of result ≡ out.new }
    {
        let answer = self.call(plan, call, out);
        Recorded {
            answer,
            length: out.len(),
            output: copied(out),
        }
    }
}

/// Plays the calls on a fresh node, as many as there is room to record, and answers how many. Of the output buffer no more is
/// used than a directory can take.
fn play<P: Plan>(
    plan: &P,
    mac: Mac,
    memory: &mut [Report],
    calls: &[Call<'_>],
    output: &mut [u8],
    records: &mut [Recorded],
) -> usize
    ensures plays { Plays (P.means plan.now) mac.0 (length memory.old) calls.now (used output.old) (used output.new) records.old records.new result }
    ensures unused { drop 2560 output.new ≡ drop 2560 output.old }
{
    let room = output.len().min(BYTES);
    let output = &mut output[..room];
    let count = calls.len().min(records.len());
    let mut node = Node::start(mac, memory);
    // By an index: after `iter_mut` a proof knows how many records there are, and not what is in them.
    for i in 0..count {
        records[i] = node.record(plan, calls[i], output);
    }
    count
}

/// Plays both nodes, each from a fresh start, and answers how many calls of each were played and recorded.
pub fn rehearse<P: Plan>(plan: &P, first: Player<'_>, second: Player<'_>) -> (usize, usize)
    ensures first { PlayedSo (P.means plan.now) first.entry first.exit.1.0.now first.exit.0.now result.0 }
    ensures second { PlayedSo (P.means plan.now) second.entry second.exit.1.0.now second.exit.0.now result.1 }
    ensures promise { RightAndAgreeing (P.means plan.now) (played first.entry first.exit.0.now result.0) (played second.entry second.exit.0.now result.1) }
    ensures cases { WorkedCases }
{
    // A parameter that holds a slice which the caller gets back cannot be passed on to a call, so each player is taken apart here.
    let Player {
        records,
        output,
        mac,
        memory,
        calls,
    } = first;
    let played = play(plan, mac, memory, calls, output, records);
    let Player {
        records,
        output,
        mac,
        memory,
        calls,
    } = second;
    (played, play(plan, mac, memory, calls, output, records))
}
