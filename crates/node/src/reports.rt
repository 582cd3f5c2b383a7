//! The reports held: taking one, and the silence of a node.

ghost use Rattle.std.specs.Prelude.{◌≡◌, length};
ghost use Rattle.std.specs.Option.{option_map};
ghost use Rattle.keyed.specs.Orders.{numbers};
ghost use Rattle.keyed.specs.Find.{found};
ghost use Rattle.keyed.specs.Store.{store_keeps};
ghost use Rattle.keyed.specs.Remove.{removed};
ghost use Rattle.report.specs.Reports.{means};
ghost use Rattle.plan.specs.Meaning.{Meaning};
ghost use Rattle.runs.specs.Calls.{Does, take as taking, silence as silencing, own_mac, let_through, stored_count};
ghost use Rattle.node.specs.Seen.{held_in, room_of, seen};
ghost use Rattle.node.specs.Told.{through_told, keep_told, take_told, silence_told};

use crate::fault::{TakeFault, Unknown};
use crate::node::Node;
use keyed::{Full, Table};
use report::{Mac, Report};

/// The report in the words, unless its neighbours are crossed.
fn let_through(words: &[u32]) -> Result<Report, TakeFault>
    ensures { through_told result ≡ let_through words.now }
{
    let report = Report::read(words)?;
    if report.is_crossed() {
        return Err(TakeFault::Crossed);
    }
    Ok(report)
}

// What the table's calls do, in a node's terms: proofs of the calls below cite these, and do not close without.
/// Keeps a report, in place of an earlier one of its MAC, and answers how many are kept then.
#[tactic(auto, using(crate::proofs::Tables::kept_answer, crate::proofs::Tables::kept_held, crate::proofs::Tables::kept_room))]
fn keep(reports: &mut Table<'_, Report>, report: Report) -> Result<usize, Full>
    ensures answer { keep_told result ≡ stored_count (room_of reports.old) (held_in reports.old) (means report) }
    ensures held { held_in reports.new ≡ store_keeps numbers own_mac (means report) (room_of reports.old) (held_in reports.old) }
    ensures room { room_of reports.new ≡ room_of reports.old }
{
    reports.store(report)
}

/// Keeps the report of a MAC no longer, and answers it.
#[tactic(auto, using(crate::proofs::Tables::forgot_answer, crate::proofs::Tables::forgot_held, crate::proofs::Tables::forgot_room))]
fn forget(reports: &mut Table<'_, Report>, mac: Mac) -> Option<Report>
    ensures answer { option_map means result ≡ found numbers own_mac mac.0 (held_in reports.old) }
    ensures held { held_in reports.new ≡ removed numbers own_mac mac.0 (held_in reports.old) }
    ensures room { room_of reports.new ≡ room_of reports.old }
{
    reports.remove(&mac)
}

/// How many reports are kept.
#[tactic(auto, using(crate::proofs::Tables::counted))]
fn count(reports: &Table<'_, Report>) -> usize
    ensures { result ≡ length (held_in reports.now) }
{
    reports.len()
}

impl Node<'_> {
    /// Holds the report in the words, in place of an earlier one of its MAC, and answers how many are held then.
    #[tactic(auto, using(crate::proofs::Steps::quiet, crate::proofs::Tables::with_table))]
    pub fn take(&mut self, words: &[u32]) -> Result<usize, TakeFault>
        ensures { (plan : Meaning) → Does plan (seen self.old) (taking words.now) (take_told result) (seen self.new) }
    {
        let report = let_through(words)?;
        Ok(keep(&mut self.reports, report)?)
    }

    /// Holds the report of this MAC no longer, and answers how many are held then.
    #[tactic(auto, using(crate::proofs::Steps::quiet, crate::proofs::Tables::with_table))]
    pub fn silence(&mut self, mac: Mac) -> Result<usize, Unknown>
        ensures { (plan : Meaning) → Does plan (seen self.old) (silencing mac.0) (silence_told result) (seen self.new) }
    {
        forget(&mut self.reports, mac).ok_or(Unknown)?;
        Ok(count(&self.reports))
    }
}
