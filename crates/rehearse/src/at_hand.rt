//! What the statements so far have left at hand, and the statements played with it.

use crate::held::Held;
use crate::inaugurate::{hold_report, hold_train, tell_inauguration};
use any_plan::AnyPlan;
use backbone::{Nodes, OwnedCall, Unplayed};
use composition::Consist;
use directory::Directory;
use node::Answer;
use plan::Train;
use playing::Scene;
use replies::{tell_answer, tell_place};
use report::Report;
use scenario::{NoStatement, Statement};
use std::alloc::Global;
use std::io;
use telling::{tell_counter, tell_hello, tell_report, tell_train};

/// It can be let go only by `end`.
pub struct AtHand<'m> {
    described: Vec<Consist>,
    held: Held,
    directory: Directory,
    plan: AnyPlan,
    nodes: Nodes<'m>,
}

impl<'m> AtHand<'m> {
    /// As many nodes can start as there is memory for.
    pub fn new(heap: Global, memory: &'m mut [Report]) -> AtHand<'m> {
        AtHand {
            described: Vec::new(heap),
            held: Held::none(),
            directory: Directory::none(),
            plan: AnyPlan::Train(Train { backbone: 0 }),
            nodes: Nodes::none(heap, memory),
        }
    }

    /// The holds in hand go back to the nodes that granted them.
    pub fn end(self) {
        let AtHand {
            described: _,
            held: _,
            directory: _,
            plan: _,
            nodes,
        } = self;
        nodes.end();
    }

    /// Plays the statement of a line, or tells by its number why it cannot be played.
    pub fn play_line(&mut self, rt: &HostRuntime, number: u64, line: &str) -> io::Result<()> {
        match Statement::parse(rt.alloc(), line) {
            Ok(statement) => match self.play(rt, statement) {
                Ok(()) => Ok(()),
                Err(Unplayed::Io(error)) => Err(error),
                Err(Unplayed::OutOfMemory(error)) => Err(error.into()),
                Err(unplayed) => println!(rt; "line {number}: {unplayed}"),
            },
            Err(NoStatement::OutOfMemory(error)) => Err(error.into()),
            Err(NoStatement::Complaint(complaint)) => println!(rt; "line {number}: {complaint}"),
        }
    }

    fn play(&mut self, rt: &HostRuntime, statement: Statement) -> Result<(), Unplayed> {
        match statement {
            Statement::Nothing => {}
            Statement::Report(words) => tell_report(rt, words.as_slice())?,
            Statement::Counter(bytes) => tell_counter(rt, bytes.as_slice())?,
            Statement::Hello(frame) => tell_hello(rt, frame.as_slice())?,
            Statement::Consist(consist) => self.described.push(consist)?,
            Statement::Uncouple => self.described.clear(),
            Statement::Train => tell_train(rt, self.described.as_slice())?,
            Statement::Held(words) => hold_report(rt, &mut self.held, words.as_slice())?,
            Statement::HeldTrain => hold_train(rt, &mut self.held, self.described.as_slice())?,
            Statement::HeldNone => {
                self.held = Held::none();
                println!(rt; "held: 0")?;
            }
            Statement::Inaugurate(own) => {
                tell_inauguration(rt, &self.held, own, &mut self.directory)?;
            }
            Statement::Plan(plan) => {
                println!(rt; "plan: {plan}")?;
                self.plan = plan;
            }
            Statement::Place(place) => tell_place(rt, &self.plan, place)?,
            Statement::Address(device) => {
                self.ask(
                    rt,
                    OwnedCall::Address(device),
                    |directory, plan| -> Answer {
                        Answer::Address(addressing::address(directory, plan, device))
                    },
                )?;
            }
            Statement::Trace(address) => {
                self.ask(rt, OwnedCall::Trace(address), |directory, plan| -> Answer {
                    Answer::Traced(addressing::trace(directory, plan, address))
                })?;
            }
            Statement::Node(statement) => self.scene(rt).play(statement)?,
        }
        Ok(())
    }

    fn scene<'a>(&'a mut self, rt: &'a HostRuntime) -> Scene<'a, 'm> {
        Scene {
            rt,
            nodes: &mut self.nodes,
            plan: &self.plan,
        }
    }

    /// Asks the node that is spoken to; where no node has started, the answer of the directory at hand is told.
    fn ask<F>(&mut self, rt: &HostRuntime, call: OwnedCall, at_hand: F) -> Result<(), Unplayed>
    where
        F: FnOnce(&Directory, &AnyPlan) -> Answer,
        requires { F.IsAlwaysCallable at_hand }
    {
        if self.nodes.started().is_empty() {
            tell_answer(rt, "", at_hand(&self.directory, &self.plan), 0, &[])?;
            return Ok(());
        }
        self.scene(rt).ask(call)
    }
}
