//! The call: the checks in their order, and then the directory.

ghost use Rattle.std.specs.Prelude.{◌≡◌, ◌≤◌};
ghost use Rattle.train.specs.Rules.{node_count};
ghost use Rattle.directory.specs.Meaning.{rows_of};
ghost use Rattle.fitting.specs.Assemble.{assemble};
ghost use Rattle.fitting.specs.Answer.{shown_rows, line_answer, answer as answer_to};
ghost use Rattle.fitting.specs.Theorems.{AreReports, Answers, SameAnswers};
ghost use Rattle.inauguration.specs.Meaning.{nodes_mean};
ghost use Rattle.inauguration.specs.Consists.{line_of};
ghost use Rattle.inauguration.specs.Answered.{answered, held_reports, NamesLoose};

use crate::awake::Nodes;
use crate::chain::find_chain;
use crate::gather::gather;
use crate::limits::is_within;
use crate::neighbours::{is_held, loose};
use crate::reading::{nodes_of, read};
use crate::refused::Refused;
use directory::Directory;
use directory::limits::NODES;
use report::{Mac, Report};

/// The directory of the line of these consists.
fn directory_of(mut consists: Nodes) -> Directory
    requires { node_count (line_of consists.items) ≤ 63 }
    ensures { rows_of result ≡ shown_rows (line_of consists.items) }
{
    read(&mut consists);
    Directory::of(&nodes_of(&consists))
}

/// Consists, limits and directory of the chain.
fn from_chain(chain: &Nodes) -> Result<Directory, Refused>
    ensures { answered result ≡ line_answer (assemble (nodes_mean chain.now.items)) }
{
    let consists = gather(chain).ok_or(Refused::Mixed)?;
    if !is_within(&consists) {
        return Err(Refused::Long);
    }
    Ok(directory_of(consists))
}

/// The checks, each where those before it passed.
fn decide(own: Mac, held: &[Report]) -> Result<Directory, Refused>
    ensures answer { answered result ≡ answer_to own.0 (held_reports held.now) }
    ensures loose { NamesLoose (held_reports held.now) result }
{
    let held = &held[..held.len().min(NODES)];
    if !is_held(held, own) {
        return Err(Refused::Mute);
    }
    if let Some(mac) = loose(held) {
        return Err(Refused::Loose(mac));
    }
    let chain = find_chain(held).ok_or(Refused::Split)?;
    from_chain(&chain)
}

/// The directory of the line that fits the reports held, or the first refusal. No more than 63 reports are held: what lies
/// behind them is not looked at.
pub fn inaugurate(own: Mac, held: &[Report]) -> Result<Directory, Refused>
    ensures answer { answered result ≡ answer_to own.0 (held_reports held.now) }
    ensures loose { NamesLoose (held_reports held.now) result }
    ensures right { AreReports (held_reports held.now) → Answers own.0 (held_reports held.now) }
    ensures agreed { AreReports (held_reports held.now) → SameAnswers own.0 (held_reports held.now) }
{
    decide(own, held)
}
