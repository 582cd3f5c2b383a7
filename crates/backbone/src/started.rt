//! A node that has started, and what is remembered of it.

ghost use Rattle.std.specs.Prelude.{◌<◌, ◌≤◌, length, IfOk, IfSome};

use crate::holds::Holds;
use crate::made::{Made, OwnedCall};
use any_plan::AnyPlan;
use directory::Row;
use directory::limits::{BYTES, ROW_BYTES};
use node::{Answer, Call, Node};
use report::Mac;
use std::alloc::{AllocError, Global};

/// A node, and the calls made on it.
#[derive(Drop)]
pub struct Started<'m> {
    pub(crate) node: Node<'m>,
    pub mac: Mac,
    pub places: usize,
    /// How many holds of it are out.
    pub out: u64,
    /// The counter of its directory.
    pub counter: Option<u32>,
    /// The calls made on it, and its answers.
    pub made: Vec<Made>,
}

/// How many holds are out after an answer, where so many were before it.
pub fn out_after(out: u64, answer: Answer) -> u64 {
    match answer {
        Answer::Granted(Ok(_)) => out.saturating_add(1),
        Answer::Returned(true) => out.saturating_sub(1),
        _ => out,
    }
}

/// The rows in the first `count` row places of a buffer.
pub fn read_rows(heap: Global, buffer: &[u8], count: usize) -> Result<Vec<Row>, AllocError>
    ensures { IfOk result (λ rows. length rows.items ≤ count) }
{
    let (rows, _) = buffer.as_chunks::<ROW_BYTES>();
    rows.iter()
        .take(count)
        .filter_map(|row| Row::read(row))
        .collect(heap)
}

/// The place of the node of a MAC.
pub(crate) fn place_of(started: &[Started<'_>], mac: Mac) -> Option<usize>
    ensures { IfSome result (λ place. place < length started.now) }
{
    started.iter().position(|started| started.mac == mac)
}

impl Started<'_> {
    /// The rows of its directory; none where it has none.
    pub fn rows(&self, heap: Global) -> Result<Vec<Row>, AllocError> {
        let mut bytes = vec![in heap; 0; BYTES]?;
        let count = self.node.directory(bytes.as_mut_slice()).unwrap_or(0);
        read_rows(heap, bytes.as_slice(), count)
    }

    /// Makes a call. A hold that is granted is in hand from then on, and the oldest in hand is the one given back.
    pub(crate) fn make(
        &mut self,
        holds: &mut Holds,
        plan: &AnyPlan,
        call: Call<'_>,
        out: &mut [u8],
    ) -> Result<Answer, AllocError> {
        let node = &mut self.node;
        match (node.ask(plan, call, out), call) {
            (Some(answer), _) => Ok(answer),
            (None, Call::GiveBack(_)) => Ok(Answer::Returned(holds.give_back(node))),
            (None, _) => holds.take(node, self.mac),
        }
    }

    /// Remembers a call that was made, and answers how many holds of the node are out.
    pub(crate) fn remember(&mut self, call: OwnedCall, answer: Answer) -> Result<u64, AllocError> {
        self.made.push(Made { call, answer })?;
        if let Answer::Inaugurated(Ok(counter)) = answer {
            self.counter = Some(counter);
        }
        self.out = out_after(self.out, answer);
        Ok(self.out)
    }
}
