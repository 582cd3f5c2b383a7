//! Rows out of the nodes of a line, as its reading meets them.

ghost use Rattle.std.specs.Prelude.{◌≡◌, ◌≤◌, ◌&&◌, [], take, replicate, ◌==◌};
ghost use Rattle.report.specs.Masks.{serves as serves_in};
ghost use Rattle.report.specs.Reports.{whole};
ghost use Rattle.train.specs.Rows.{row};
ghost use Rattle.directory.specs.Numbering.{NodesRun, SubnetsRun};
ghost use Rattle.directory.specs.Meaning.{blank, row_means, rows_mean, rows_of, met_means, meeting, rows_from};
ghost use Rattle.directory.specs.Lookups.{Lookups};

use crate::directory::Directory;
use crate::row::{BLANK, Draft, MetNode, ROWS, Row};
use report::Uuid;

impl MetNode {
    fn serves(&self, network: u8) -> bool
        requires { (1 ≤ network) × (network ≤ 8) }
        ensures { result ≡ serves_in self.now.mask network }
    {
        self.mask >> (network - 1) & 1 == 1
    }

    /// The row of a network that it serves.
    fn row(&self, number: u8, network: u8, subnet: u8) -> Row
        ensures { row_means result ≡ row (meeting (met_means self.now) number network) subnet }
    {
        Row {
            uuid: self.uuid,
            network,
            subnet,
            node: number,
            way: self.way,
        }
    }
}

impl Row {
    /// Whether it is of this network of this consist.
    pub(crate) fn is_of(&self, uuid: Uuid, network: u8) -> bool
        ensures { result ≡ ((row_means self.now).uuid == whole uuid) && (self.now.network == network) }
    {
        self.uuid.is_same(uuid) && self.network == network
    }
}

impl Draft {
    /// No row is counted yet.
    fn new() -> Draft
        ensures none { result.count ≡ 0 }
        ensures blank { result.rows ≡ replicate 128 blank }
    {
        Draft {
            rows: [BLANK; ROWS],
            count: 0,
        }
    }
}

/// The rows node by node, and those of a node by rising network. The first row of a consist's network gives it the next
/// subnet, later ones repeat it.
fn fill(nodes: &[MetNode]) -> Draft
    ensures within { result.count ≤ 128 }
    ensures rows { rows_mean (take result.count result.rows) ≡ rows_from nodes.now }
    ensures numbered { NodesRun (take result.count result.rows) }
    ensures subnetted { SubnetsRun (take result.count result.rows) }
    ensures lookups { Lookups }
{
    let mut draft = Draft::new();
    let mut number: u8 = 0;
    let mut top: u8 = 0;
    'rows: for node in nodes {
        if node.mask == 0 {
            continue;
        }
        number += 1;
        for network in 1..=8u8 {
            if !node.serves(network) {
                continue;
            }
            if draft.count == ROWS {
                break 'rows;
            }
            // Counted by hand: as the project asks, the loop over the rows so far yields the subnet by its breaks.
            let mut k = 0;
            let subnet = loop {
                if k == draft.count {
                    top += 1;
                    break top;
                }
                if draft.rows[k].is_of(node.uuid, network) {
                    break draft.rows[k].subnet;
                }
                k += 1;
            };
            draft.rows[draft.count] = node.row(number, network, subnet);
            draft.count += 1;
        }
    }
    draft
}

impl Directory {
    /// That of a fresh node, not in force.
    pub fn none() -> Directory
        ensures rows { rows_of result ≡ [] }
        ensures blank { result.rows ≡ replicate 128 blank }
    {
        let Draft { rows, count } = Draft::new();
        Directory { rows, count }
    }

    /// That of the nodes of a line in the order in which its reading meets them.
    pub fn of(nodes: &[MetNode]) -> Directory
        ensures rows { rows_of result ≡ rows_from nodes.now }
        ensures lookups { Lookups }
    {
        let Draft { rows, count } = fill(nodes);
        Directory { rows, count }
    }
}
