//! The rows at hand: reports under their MACs, in memory of the program.

ghost use Rattle.std.specs.Prelude.{◌≡◌, [], Ok, Err, MatchResult};
ghost use Rattle.composition.specs.Meaning.{described};
ghost use Rattle.composition.specs.Faults.{told, line_fault};
ghost use Rattle.rehearse.specs.Rows.{at_hand, held_answer, held_keeps};

use composition::{Composition, LineFault};
use directory::limits::NODES;
use keyed::list::records;
use keyed::{Full, Table};
use report::Report;

/// The first `count` places hold the reports, in rising order of their MACs. A table stores in free places of memory that
/// it is lent, so the count stands beside the places.
#[derive(Drop)]
pub struct Held {
    places: [Report; NODES],
    count: usize,
}

impl Held {
    pub fn none() -> Held
        ensures { at_hand result ≡ [] }
    {
        Held {
            places: [Report::default(); NODES],
            count: 0,
        }
    }

    /// Stores a report, also in place of one under an equal MAC, and answers how many there are then.
    pub fn store(&mut self, report: Report) -> Result<usize, Full>
        ensures answer { result ≡ held_answer report self.old }
        ensures rows { at_hand self.new ≡ held_keeps report self.old }
    {
        let len = self.count;
        let mut table = Table::new(&mut self.places, len);
        let count = table.store(report)?;
        self.count = count;
        Ok(count)
    }

    /// The true reports of a described train, or the rule that it breaks.
    pub fn of_train(train: &Composition) -> Result<Held, LineFault>
        ensures { MatchResult result
            (λ _. told (line_fault (described train.now.consists.now)) ≡ Ok tt)
            (λ fault. told (line_fault (described train.now.consists.now)) ≡ Err fault) }
    {
        train.check()?;
        let mut reports = [Report::default(); NODES];
        let mut held = Held::none();
        if let Ok(count) = train.reports(&mut reports) {
            for report in reports.iter().take(count) {
                let _ = held.store(*report);
            }
        }
        Ok(held)
    }

    pub fn reports(&self) -> &[Report]
        ensures { result.now ≡ at_hand self.now }
    {
        records(&self.places, self.count)
    }
}
