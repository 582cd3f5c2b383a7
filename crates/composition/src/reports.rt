//! The true reports of the awake nodes, written from left to right.

ghost use Rattle.std.specs.Prelude.{◌≡◌, ◌+◌, ◌≤◌, map, length, drop, count_by, is_some};
ghost use Rattle.std.specs.Option.{option_map};
ghost use Rattle.report.specs.Reports.{means};
ghost use Rattle.train.specs.Truth.{awake_of, awake, first_mac, facing, report, true_reports};
ghost use Rattle.train.specs.Theorems.{FitsOneLine};
ghost use Rattle.directory.specs.Meaning.{way_means};
ghost use Rattle.composition.specs.Meaning.{node_means, nodes_of, consist_means, described};
ghost use Rattle.composition.specs.Faults.{macs_in};
ghost use Rattle.composition.specs.Standing.{standing, awake_node, awake_in, first_awake};
ghost use Rattle.composition.specs.Sending.{coded, sent, sent_answer, sent_leaves, Put};

use crate::{Consist, Node};
use directory::{Short, Way};
use report::{Mac, Report, Uuid};

/// The MAC of the first awake node of a consist from a step on, as it is met from the left.
fn next_awake(consist: &Consist, step: usize) -> Option<Mac>
    requires { step ≤ length (nodes_of consist.now) }
    ensures { option_map (λ m. m.0) result ≡ first_awake (awake_in (consist_means consist.now) (drop step (standing (consist_means consist.now)))) }
{
    for i in step..consist.nodes().len() {
        let placed = consist.met(i);
        if placed.node.mac.is_some() {
            return placed.node.mac;
        }
    }
    None
}

/// The MAC of the first awake node of the consists, or 0 for none.
fn first_mac(consists: &[Consist]) -> Mac
    ensures { result.0 ≡ first_mac (awake (described consists.now)) }
{
    for consist in consists {
        if let Some(mac) = next_awake(consist, 0) {
            return mac;
        }
    }
    Mac(0)
}

/// The next awake nodes to the left and to the right, 0 for none.
#[derive(Clone, Copy)]
struct Neighbours {
    left: Mac,
    right: Mac,
}

impl Neighbours {
    /// Which are on side 1 and on side 2 of a node that stands so.
    fn sides(self, way: Way) -> (Mac, Mac)
        ensures side1 { result.0.0 ≡ facing (way_means way) self.left.0 self.right.0 }
        ensures side2 { result.1.0 ≡ facing (way_means way) self.right.0 self.left.0 }
    {
        match way {
            Way::Forward => (self.left, self.right),
            Way::Turned => (self.right, self.left),
        }
    }
}

/// The report of an awake node between its neighbours.
fn report_of(consist: &Consist, position: u8, mac: Mac, between: Neighbours) -> Report
    ensures { result ≡ coded (report between.left.0 (awake_node (consist_means consist.now) position mac.0) between.right.0) }
{
    let (side1, side2) = between.sides(consist.way);
    // Each half is read, and so known to fit 64 bits: of a copy of the whole UUID the proof would not know that.
    let (high, low) = (consist.uuid.high, consist.uuid.low);
    Report {
        mac,
        side1,
        side2,
        uuid: Uuid { high, low },
        position,
        nodes: consist.nodes().len() as u8,
        masks: consist.masks(),
    }
}

/// Writes the reports of a consist from a place on, between its neighbours; gives the place behind them and the last MAC.
/// Nodes awake from `filter_map`, zipped with the places, would be no plainer: the last MAC passes from node to node, and the
/// place behind is wanted too.
fn put_consist(
    consist: &Consist,
    between: Neighbours,
    at: usize,
    out: &mut [Report],
) -> (usize, Mac)
    requires { at + length (awake_of (consist_means consist.now)) ≤ length out.old }
    ensures { Put (consist_means consist.now) between.left.0 between.right.0 at out.old result.0 result.1.0 out.new }
{
    let mut end = at;
    let mut last = between.left;
    for step in 0..consist.nodes().len() {
        let placed = consist.met(step);
        if let Some(mac) = placed.node.mac {
            let right = next_awake(consist, step + 1).unwrap_or(between.right);
            let own = Neighbours { left: last, right };
            out[end] = report_of(consist, placed.position, mac, own);
            end += 1;
            last = mac;
        }
    }
    (end, last)
}

/// Writes the true reports at the front of the buffer; what lies behind stays.
pub(crate) fn put_reports(consists: &[Consist], out: &mut [Report])
    requires { length (true_reports (described consists.now)) ≤ length out.old }
    ensures { out.new ≡ sent_leaves (described consists.now) out.old }
{
    let mut at = 0;
    let mut left = Mac(0);
    for (i, consist) in consists.iter().enumerate() {
        let right = first_mac(&consists[i + 1..consists.len()]);
        let (end, last) = put_consist(consist, Neighbours { left, right }, at, out);
        at = end;
        left = last;
    }
}

fn count_awake(nodes: &[Node]) -> usize
    ensures { result ≡ count_by (λ n. is_some n.mac) nodes.now }
{
    nodes.iter().filter(|node| node.mac.is_some()).count()
}

/// How many nodes are awake, if there is room for so many reports.
pub(crate) fn awake_within(consists: &[Consist], room: usize) -> Result<usize, Short>
    ensures answer { result ≡ sent_answer (described consists.now) room }
    ensures meaning { map means (sent (described consists.now)) ≡ true_reports (described consists.now) }
    ensures one_line { FitsOneLine }
{
    let mut free = room;
    for consist in consists {
        let awake = count_awake(consist.nodes());
        if awake > free {
            return Err(Short);
        }
        free -= awake;
    }
    Ok(room - free)
}
