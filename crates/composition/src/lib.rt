//! A described train: its consists from left to right, their ways round and who is awake.

#![tactic(auto)]

mod consist;
mod fault;
mod reading;
mod reports;
mod rules;
mod show;

ghost use Rattle.std.specs.Prelude.{◌≡◌, map, length, OnOk};
ghost use Rattle.report.specs.Reports.{means};
ghost use Rattle.train.specs.Theorems.{FitsOneLine, OneDirectory, Numbered, LimitsSuffice};
ghost use Rattle.train.specs.Truth.{true_reports};
ghost use Rattle.composition.specs.Meaning.{described};
ghost use Rattle.composition.specs.Faults.{told, line_fault};
ghost use Rattle.composition.specs.Exact.{Exactly};
ghost use Rattle.composition.specs.Sending.{sent, sent_answer, sent_leaves};
ghost use Rattle.composition.specs.Gathering.{directory_answer, directory_told};

pub use consist::{Consist, Node};
use directory::Directory;
pub use directory::Short;
pub use fault::{ConsistFault, ConsistRule, LineFault};
use reading::directory_of;
use report::Report;
use reports::{awake_within, put_reports};

/// A described train, from left to right.
#[derive(Clone, Copy)]
pub struct Composition<'a> {
    pub consists: &'a [Consist],
}

impl Composition<'_> {
    /// Whether it is a line within the limits; else the first rule that it breaks.
    pub fn check(&self) -> Result<(), LineFault>
        ensures fault { result ≡ told (line_fault (described self.now.consists.now)) }
        ensures exact { Exactly (described self.now.consists.now) result }
    {
        rules::check_line(self.consists)
    }

    /// Writes the true reports of the awake nodes, from left to right, at the front of the buffer, and gives their number.
    pub fn reports(&self, out: &mut [Report]) -> Result<usize, Short>
        ensures answer { result ≡ sent_answer (described self.now.consists.now) (length out.old) }
        ensures meaning { map means (sent (described self.now.consists.now)) ≡ true_reports (described self.now.consists.now) }
        ensures one_line { FitsOneLine }
        ensures buffer { out.new ≡ sent_leaves (described self.now.consists.now) out.old }
    {
        let count = awake_within(self.consists, out.len())?;
        put_reports(self.consists, out);
        Ok(count)
    }

    /// Its directory, if it is a line within the limits; else the first rule that it breaks.
    pub fn directory(&self) -> Result<Directory, LineFault>
        ensures answer { directory_told result ≡ directory_answer (described self.now.consists.now) }
        ensures one { OnOk result OneDirectory }
        ensures numbered { OnOk result Numbered }
        ensures limits { OnOk result LimitsSuffice }
    {
        self.check()?;
        Ok(directory_of(self.consists))
    }
}

#[cfg(test)]
mod tests;
