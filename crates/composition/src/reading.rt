//! How a line is read: its nodes in the order in which they are met, and its directory.
//!
//! Not one reading with that of `inauguration`: these consists are lent and read by place, those are owned and turned in place; a
//! trait over both kinds, with its laws, would be longer than either reading.

ghost use Rattle.std.specs.Prelude.{◌≡◌, ◌+◌, ◌<◌, ◌≤◌, ◌++◌, length, Ok, nat_lt, slice_index_or};
ghost use Rattle.std.specs.List.{flat_map};
ghost use Rattle.train.specs.Line.{flip};
ghost use Rattle.train.specs.Rules.{IsLine, node_count, Within};
ghost use Rattle.train.specs.Rows.{left, reading};
ghost use Rattle.train.specs.Theorems.{OneDirectory, Numbered, LimitsSuffice};
ghost use Rattle.directory.specs.Meaning.{way_means, rows_of};
ghost use Rattle.composition.specs.Meaning.{nodes_of, consist_means, described};
ghost use Rattle.composition.specs.Gathering.{nowhere, met_of, nodes_mean, directory_answer};
ghost use Rattle.arrayvec.specs.ArrayVec.{array_vec_len};

use crate::Consist;
use arrayvec::ArrayVec;
use directory::limits::NODES;
use directory::{Directory, MetNode, Way};

/// Whether the outermost consist at the left end has the smaller UUID.
fn is_left_first(consists: &[Consist]) -> bool
    requires { 1 ≤ length consists.now }
    ensures { result ≡ nat_lt (left (described consists.now)) (left (flip (described consists.now))) }
{
    let last = consists.len() - 1;
    consists[0].uuid.is_less(consists[last].uuid)
}

/// The consist that the reading meets at a place, the way it stands there.
fn read_at(consists: &[Consist], place: usize) -> Consist
    requires { place < length consists.now }
    ensures { consist_means result ≡ slice_index_or (reading (described consists.now)) place nowhere }
{
    let last = consists.len() - 1;
    if last == 0 {
        return Consist {
            way: Way::Forward,
            ..consists[0]
        };
    }
    if is_left_first(consists) {
        return consists[place];
    }
    let consist = consists[last - place];
    Consist {
        way: consist.way.other(),
        ..consist
    }
}

/// Appends the nodes of a consist as they are met from the left.
fn put_nodes(consist: &Consist, nodes: &mut ArrayVec<MetNode, NODES>)
    requires { array_vec_len nodes.old + length (nodes_of consist.now) ≤ 63 }
    ensures met { nodes_mean nodes.new.items ≡ nodes_mean nodes.old.items ++ met_of (consist_means consist.now) }
    ensures len { array_vec_len nodes.new ≡ array_vec_len nodes.old + length (nodes_of consist.now) }
{
    for step in 0..consist.nodes().len() {
        nodes.push(MetNode {
            uuid: consist.uuid,
            mask: consist.met(step).node.mask,
            way: consist.way,
        });
    }
}

/// The nodes of a line within the limits, in the order of its reading.
fn met_nodes(consists: &[Consist]) -> ArrayVec<MetNode, NODES>
    requires { node_count (described consists.now) ≤ 63 }
    ensures { nodes_mean result.items ≡ flat_map met_of (reading (described consists.now)) }
{
    let mut nodes = ArrayVec::new();
    for place in 0..consists.len() {
        put_nodes(&read_at(consists, place), &mut nodes);
    }
    nodes
}

/// The directory of a line within the limits.
pub(crate) fn directory_of(consists: &[Consist]) -> Directory
    requires { (IsLine (described consists.now)) × (Within (described consists.now)) }
    ensures rows { Ok (rows_of result) ≡ directory_answer (described consists.now) }
    ensures one { OneDirectory }
    ensures numbered { Numbered }
    ensures limits { LimitsSuffice }
{
    Directory::of(met_nodes(consists).as_slice())
}
