//! The statements of a scenario.

mod consist;
mod device;
mod nodes;
mod plans;

use crate::complaint::NoStatement;
use crate::number::dotted;
use crate::words::{Words, mac};
use addressing::Device;
use any_plan::AnyPlan;
use composition::Consist;
pub use nodes::NodeStatement;
use plan::Place;
use report::Mac;
use std::alloc::Global;

/// One line of a scenario.
#[derive(Drop)]
pub enum Statement {
    /// An empty line, or a comment alone.
    Nothing,
    Report(Vec<u32>),
    Counter(Vec<u8>),
    Hello(Vec<u8>),
    /// One more consist at the right end of the described train.
    Consist(Consist),
    /// The described train is forgotten.
    Uncouple,
    /// The described train is told.
    Train,
    /// One more report among the rows at hand.
    Held(Vec<u32>),
    /// The true reports of the described train become the rows at hand.
    HeldTrain,
    /// The rows at hand are forgotten.
    HeldNone,
    /// The rows at hand are inaugurated as the node of this MAC.
    Inaugurate(Mac),
    /// The plan from now on.
    Plan(AnyPlan),
    /// The address of a place, if there is such a place.
    Place(Option<Place>),
    Address(Device),
    Trace(u32),
    Node(NodeStatement),
}

impl Statement {
    /// What a line says, or why it is no statement.
    pub fn parse(heap: Global, line: &str) -> Result<Statement, NoStatement<'_>> {
        let text = line.split_once('#').map_or(line, |(before, _)| before);
        let mut words = Words::of(heap, text);
        let Some(first) = words.next() else {
            return Ok(Statement::Nothing);
        };
        let statement = Statement::begun(first, &mut words)?;
        words.end()?;
        Ok(statement)
    }

    /// The statement that begins with this word.
    fn begun<'a>(first: &'a str, words: &mut Words<'a>) -> Result<Statement, NoStatement<'a>> {
        Ok(match first {
            "report" => Statement::Report(words.words()?),
            "counter" => Statement::Counter(words.bytes()?),
            "hello" => Statement::Hello(words.bytes()?),
            "consist" => Statement::Consist(consist::consist(words)?),
            "uncouple" => Statement::Uncouple,
            "train" => Statement::Train,
            "held" => Statement::held(words)?,
            "inaugurate" => Statement::inaugurate(words)?,
            "plan" => Statement::Plan(plans::plan(words)?),
            "place" => Statement::Place(plans::place(words)?),
            "address" => Statement::Address(device::device(words)?),
            "trace" => Statement::Trace(dotted(words.expect("an address")?)?),
            other => Statement::Node(NodeStatement::begun(other, words)?),
        })
    }

    /// `train`, `none`, or the words of a report.
    fn held<'a>(words: &mut Words<'a>) -> Result<Statement, NoStatement<'a>> {
        if words.goes_on_with("train") {
            return Ok(Statement::HeldTrain);
        }
        if words.goes_on_with("none") {
            return Ok(Statement::HeldNone);
        }
        Ok(Statement::Held(words.words()?))
    }

    /// The rows at hand as the node of a MAC; the node that is spoken to where none is named.
    fn inaugurate<'a>(words: &mut Words<'a>) -> Result<Statement, NoStatement<'a>> {
        match words.next() {
            Some(token) => Ok(Statement::Inaugurate(mac(token)?)),
            None => Ok(Statement::Node(NodeStatement::Inaugurate)),
        }
    }
}
