//! Nodes started, spoken to, compared and rehearsed as the statements say.

use agreement::{play_again, tell_agreement};
use any_plan::AnyPlan;
use backbone::{Nodes, OwnedCall, Unplayed};
use replies::tell_answer;
use report::Mac;
use scenario::NodeStatement;

/// The nodes and the plan that statements are played with, and where answers are told.
#[derive(Drop)]
pub struct Scene<'a, 'm> {
    pub rt: &'a HostRuntime,
    pub nodes: &'a mut Nodes<'m>,
    pub plan: &'a AnyPlan,
}

impl Scene<'_, '_> {
    /// Plays a statement about nodes.
    pub fn play(&mut self, statement: NodeStatement) -> Result<(), Unplayed> {
        match statement {
            NodeStatement::Start(mac, places) => self.nodes.start(self.rt.alloc(), mac, places),
            NodeStatement::At(mac) => self.speak_to(mac),
            NodeStatement::Take(words) => self.call(OwnedCall::Take(words), 0),
            NodeStatement::Silence(mac) => self.ask(OwnedCall::Silence(mac)),
            NodeStatement::Inaugurate => self.ask(OwnedCall::Inaugurate),
            NodeStatement::Hold => self.ask(OwnedCall::Hold),
            NodeStatement::Return => self.give_back(),
            NodeStatement::Directory(bytes) => { self.call(OwnedCall::Directory, bytes) }
            NodeStatement::Status(number) => self.ask(OwnedCall::Status(number)),
            NodeStatement::Agree(macs) => tell_agreement(self.rt, self.nodes, macs.as_slice()),
            NodeStatement::Rehearse(first, second) => self.rehearse(first, second),
        }
    }

    /// Makes a call without an output buffer on the node that is spoken to, and tells its answer.
    pub fn ask(&mut self, call: OwnedCall) -> Result<(), Unplayed> {
        self.call(call, 0)
    }

    /// Makes a call with an output buffer of so many bytes.
    fn call(&mut self, call: OwnedCall, bytes: usize) -> Result<(), Unplayed> {
        // Before there is a buffer.
        if self.nodes.started().is_empty() {
            return Err(Unplayed::NoNode);
        }
        let mut buffer = vec![in self.rt.alloc(); 0; bytes]?;
        let (answer, out) = self.nodes.make(self.plan, call, buffer.as_mut_slice())?;
        tell_answer(self.rt, "", answer, out, buffer.as_slice())?;
        Ok(())
    }

    fn speak_to(&mut self, mac: Mac) -> Result<(), Unplayed> {
        let place = self.nodes.place_of(mac).ok_or(Unplayed::NoNodeOf(mac))?;
        self.nodes.speak_to(place);
        Ok(())
    }

    /// The oldest hold in hand goes to the node that is spoken to.
    fn give_back(&mut self) -> Result<(), Unplayed> {
        let mac = self.nodes.oldest_hold()?;
        self.ask(OwnedCall::GiveBack(mac))
    }

    fn rehearse(&self, first: Mac, second: Mac) -> Result<(), Unplayed> {
        let first = self.nodes.get(first)?;
        let second = self.nodes.get(second)?;
        play_again(self.rt, self.plan, first, second)?;
        Ok(())
    }
}
