//! The reading: consists, and then nodes, in the order in which a line is read.
//!
//! Not one reading with that of `composition`: these consists are owned and turned in place, those are lent and read by place; a
//! trait over both kinds, with its laws, would be longer than either reading.

ghost use Rattle.std.specs.Prelude.{◌≡◌, ◌+◌, ◌≤◌, ◌++◌, map, length, nat_lt};
ghost use Rattle.arrayvec.specs.ArrayVec.{array_vec_len};
ghost use Rattle.report.specs.Reports.{whole};
ghost use Rattle.train.specs.Line.{flip as flip_line};
ghost use Rattle.train.specs.Rules.{node_count};
ghost use Rattle.train.specs.Rows.{reading as line_reading, met};
ghost use Rattle.directory.specs.Meaning.{met_means};
ghost use Rattle.inauguration.specs.Consists.{masks_of, line_of};
ghost use Rattle.inauguration.specs.Nodes.{node_of, consist_nodes, plain};

use crate::awake::Awake;
use arrayvec::ArrayVec;
use directory::limits::NODES;
use directory::{MetNode, Way};
use report::Uuid;

/// The consists from the other end.
fn flip(consists: &mut [Awake])
    ensures { line_of consists.new ≡ flip_line (line_of consists.old) }
{
    consists.reverse();
    for consist in consists {
        consist.way = consist.way.other();
    }
}

/// A line of one consist is read forward, any other from the end whose outermost consist has the smaller UUID.
#[tactic(auto, using(crate::proofs::Readings::read_by))]
pub(crate) fn read(consists: &mut [Awake])
    ensures { line_of consists.new ≡ line_reading (line_of consists.old) }
{
    match &*consists {
        [_] => consists[0].way = Way::Forward,
        [first, .., last] if !first.report.uuid.is_less(last.report.uuid) => flip(consists),
        _ => {}
    }
}

impl Awake {
    /// A node of its consist as it is met.
    fn node(&self, mask: u8) -> MetNode
        ensures { met_means result ≡ node_of self.now mask }
    {
        MetNode {
            uuid: self.report.uuid,
            mask,
            way: self.way,
        }
    }
}

/// Adds the nodes of one more consist: a turned one is met at its highest position first.
fn meet(nodes: &mut ArrayVec<MetNode, NODES>, consist: &Awake)
    requires { array_vec_len nodes.old + length (masks_of consist.now) ≤ 63 }
    ensures nodes { map met_means nodes.new.items ≡ map met_means nodes.old.items ++ consist_nodes consist.now }
    ensures count { array_vec_len nodes.new ≡ array_vec_len nodes.old + length (masks_of consist.now) }
{
    let masks = consist.masks();
    match consist.way {
        Way::Forward => {
            for mask in masks {
                nodes.push(consist.node(*mask));
            }
        }
        Way::Turned => {
            for mask in masks.iter().rev() {
                nodes.push(consist.node(*mask));
            }
        }
    }
}

/// The nodes of consists in their order.
pub(crate) fn nodes_of(consists: &[Awake]) -> ArrayVec<MetNode, NODES>
    requires { node_count (line_of consists.now) ≤ 63 }
    ensures { map met_means result.items ≡ map plain (met (line_of consists.now)) }
{
    let mut nodes = ArrayVec::new();
    for consist in consists {
        meet(&mut nodes, consist);
    }
    nodes
}
