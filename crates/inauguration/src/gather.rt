//! The consists of the chain, gathered under their UUIDs.

ghost use Rattle.std.specs.Prelude.{◌≡◌};
ghost use Rattle.std.specs.Option.{option_map};
ghost use Rattle.train.specs.Agreement.{skeleton};
ghost use Rattle.inauguration.specs.Meaning.{nodes_mean};
ghost use Rattle.inauguration.specs.Consists.{line_of, outlines_from};

use crate::awake::{Awake, Nodes};
use arrayvec::ArrayVec;
use directory::limits::NODES;
use keyed::Table;

/// The consists along the chain, each by its node met first, if the nodes are those of a line. A UUID that was met before
/// must be that of the consist met last.
pub(crate) fn gather(chain: &Nodes) -> Option<Nodes>
    ensures { option_map (λ c. skeleton (line_of c.items)) result ≡ outlines_from (nodes_mean chain.now.items) }
{
    let mut slots = [Awake::default(); NODES];
    let mut table = Table::new(&mut slots, 0);
    let mut consists: Nodes = ArrayVec::new();
    for node in chain.iter() {
        let uuid = node.uuid();
        match table.find(&uuid) {
            None => consists.push(*node),
            Some(met) => {
                let last = consists.last()?;
                if last.report.uuid != uuid || !met.goes_on(node) {
                    return None;
                }
            }
        }
        // There is a place for each report, so the table is never full.
        let _count = table.store(*node).unwrap();
    }
    (!consists.is_empty()).then_some(consists)
}
