//! The three limits: nodes, networks and set mask bits.

ghost use Rattle.std.specs.Prelude.{◌≡◌};
ghost use Rattle.train.specs.Rules.{node_count, network_count, bit_count};
ghost use Rattle.fitting.specs.Answer.{is_within as within_limits};
ghost use Rattle.inauguration.specs.Consists.{line_of};

use crate::awake::Nodes;
use directory::limits::{BITS, NETWORKS, NODES};
use report::mask;

/// The nodes of the line of these consists.
#[tactic(auto, using(crate::proofs::Sums::nodes_by))]
fn node_count(consists: &Nodes) -> usize
    ensures { result ≡ node_count (line_of consists.now.items) }
{
    consists.iter().map(|c| c.masks().len()).sum()
}

/// Its networks, each of each consist once.
#[tactic(auto, using(crate::proofs::Sums::networks_by))]
fn network_count(consists: &Nodes) -> u32
    ensures { result ≡ network_count (line_of consists.now.items) }
{
    consists
        .iter()
        .map(|c| mask::network_count(c.masks()))
        .sum()
}

/// Its set mask bits.
#[tactic(auto, using(crate::proofs::Sums::bits_by))]
fn bit_count(consists: &Nodes) -> u32
    ensures { result ≡ bit_count (line_of consists.now.items) }
{
    consists.iter().map(|c| mask::bit_count(c.masks())).sum()
}

/// Whether the line of these consists is within the limits.
pub(crate) fn is_within(consists: &Nodes) -> bool
    ensures { result ≡ within_limits (line_of consists.now.items) }
{
    let nodes = node_count(consists);
    let networks = network_count(consists);
    let bits = bit_count(consists);
    nodes <= NODES && networks <= NETWORKS && bits <= BITS
}
