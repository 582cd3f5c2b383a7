//! The calls of a node as plain data, and one of them made.

ghost use Rattle.std.specs.Prelude.{◌≡◌, not, is_some, MatchOption};
ghost use Rattle.runs.specs.Calls.{Step, event};
ghost use Rattle.node.specs.Seen.{seen};
ghost use Rattle.node.specs.Recorded.{calling, hands_hold, answer_told};

use crate::fault::{Busy, DirectoryFault, InaugurationFault, TakeFault, Unknown};
use crate::hold::Hold;
use crate::node::Node;
use crate::status::Status;
use addressing::{Device, Refused};
use plan::Plan;
use report::Mac;

/// A call and its input. A hold that is given back is named by the MAC that it bears.
#[derive(Clone, Copy)]
pub enum Call<'a> {
    Take(&'a [u32]),
    Silence(Mac),
    Inaugurate,
    Hold,
    GiveBack(Mac),
    Directory,
    Status(u8),
    Address(Device),
    Trace(u32),
}

/// What a call answered. A hold that is granted is told by the MAC that it bears.
#[derive(Clone, Copy, PartialEq, Debug)]
pub enum Answer {
    Taken(Result<usize, TakeFault>),
    Silenced(Result<usize, Unknown>),
    Inaugurated(Result<u32, InaugurationFault>),
    Granted(Result<Mac, Busy>),
    Returned(bool),
    Directory(Result<usize, DirectoryFault>),
    Status(Result<Status, Refused>),
    Address(Result<u32, Refused>),
    Traced(Result<Device, Refused>),
}

impl Node<'_> {
    /// Makes the call.
    #[tactic(auto, using(crate::proofs::Steps::with_buffer))]
    pub(crate) fn call<P: Plan>(&mut self, plan: &P, call: Call<'_>, out: &mut [u8]) -> Answer
        ensures { Step (P.means plan.now) (seen self.old) (event (calling call.entry) (answer_told result) out.old out.new) (seen self.new) }
    {
        match call {
            Call::Take(words) => Answer::Taken(self.take(words)),
            Call::Silence(mac) => Answer::Silenced(self.silence(mac)),
            Call::Inaugurate => Answer::Inaugurated(self.inaugurate()),
            Call::Hold => Answer::Granted(self.hold().map(|Hold { mac }| mac)),
            Call::GiveBack(mac) => Answer::Returned(self.give_back(Hold { mac })),
            Call::Directory => Answer::Directory(self.directory(out)),
            Call::Status(number) => Answer::Status(self.status(number)),
            Call::Address(device) => Answer::Address(self.address(plan, device)),
            Call::Trace(address) => Answer::Traced(self.trace(plan, address)),
        }
    }

    /// Makes a call that hands no hold over, and no other: a hold is a token, which only `hold` gives and `give_back` takes, and
    /// a call as data has but its MAC.
    pub fn ask<P: Plan>(&mut self, plan: &P, call: Call<'_>, out: &mut [u8]) -> Option<Answer>
        ensures which { is_some result ≡ not (hands_hold (calling call.entry)) }
        ensures made { MatchOption result
            ((seen self.new ≡ seen self.old) × (out.new ≡ out.old))
            (λ answer. Step (P.means plan.now) (seen self.old) (event (calling call.entry) (answer_told answer) out.old out.new) (seen self.new)) }
    {
        match call {
            Call::Hold | Call::GiveBack(_) => None,
            call => Some(self.call(plan, call, out)),
        }
    }
}
