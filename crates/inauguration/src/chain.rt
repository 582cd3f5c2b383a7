//! The chain: the held reports from neighbour to neighbour, followed from one of its ends.

ghost use Rattle.std.specs.Prelude.{◌≡◌, ◌≤◌, length};
ghost use Rattle.std.specs.Option.{option_map, unwrap_or};
ghost use Rattle.report.specs.Reports.{means};
ghost use Rattle.directory.specs.Meaning.{way_means};
ghost use Rattle.fitting.specs.Walk.{end_mac, way_from, next_from, chain_of};
ghost use Rattle.inauguration.specs.Meaning.{all_mean, nodes_mean};

use crate::awake::{Awake, Nodes};
use crate::neighbours::place_of;
use arrayvec::ArrayVec;
use directory::Way;
use directory::limits::NODES;
use report::{Mac, Report};

/// The MAC of the first report with no neighbour on a side.
fn end_mac(held: &[Report]) -> Option<Mac>
    ensures { unwrap_or (option_map (λ m. m.0) result) 0 ≡ end_mac (all_mean held.now) }
{
    held.iter()
        .find(|report| report.side1 == Mac(0) || report.side2 == Mac(0))
        .map(|report| report.mac)
}

/// How a node with `left` to its left stands, and what is to its right.
fn seen_from(report: &Report, left: Mac) -> (Way, Mac)
    ensures way { way_means result.0 ≡ way_from left.0 (means report.now) }
    ensures next { result.1.0 ≡ next_from left.0 (means report.now) }
{
    if report.side1 == left {
        (Way::Forward, report.side2)
    } else {
        (Way::Turned, report.side1)
    }
}

/// The chain through all the reports, if they are one. The marks stand beside the reports as in the definition that it follows,
/// which marks places too.
pub(crate) fn find_chain(held: &[Report]) -> Option<Nodes>
    requires { length held.now ≤ 63 }
    ensures { option_map (λ c. nodes_mean c.items) result ≡ chain_of (all_mean held.now) }
{
    let mut chain = ArrayVec::new();
    let mut marks = [false; NODES];
    let met = &mut marks[..held.len()];
    let mut left = Mac(0);
    let mut mac = end_mac(held).unwrap_or_default();
    while mac != Mac(0) {
        let place = place_of(held, mac)?;
        if met[place] {
            return None;
        }
        met[place] = true;
        let report = held[place];
        let (way, next) = seen_from(&report, left);
        chain.push(Awake { report, way });
        left = report.mac;
        mac = next;
    }
    (chain.len() == held.len()).then_some(chain)
}
