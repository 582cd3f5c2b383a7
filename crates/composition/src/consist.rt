//! Consists and their nodes, as they are described.

ghost use Rattle.std.specs.Prelude.{◌≡◌, ◌<◌, length, slice_index, slice_index_or};
ghost use Rattle.report.specs.Masks.{together};
ghost use Rattle.report.specs.Reading.{padded};
ghost use Rattle.composition.specs.Meaning.{masks_of, nodes_of, consist_means, placed_means};
ghost use Rattle.composition.specs.Standing.{standing, nobody};

use directory::Way;
use report::mask::together;
use report::{Mac, Uuid};
use std::array;

/// A backbone node: bit `i - 1` of its mask says that it serves network `i`; awake, it has a MAC.
#[derive(Clone, Copy)]
pub struct Node {
    pub mask: u8,
    pub mac: Option<Mac>,
}

/// A consist of 1 to 4 nodes, from its end 1; places past `count` are not looked at. A count that is out of range can be
/// described, and is refused: so it stands beside the places.
#[derive(Clone, Copy)]
pub struct Consist {
    pub uuid: Uuid,
    pub way: Way,
    pub count: u8,
    pub nodes: [Node; 4],
}

/// The mask of the node at place `i` from end 1, or 0 past the nodes.
fn mask_at(nodes: &[Node], i: usize) -> u8
    ensures { result ≡ slice_index (masks_of nodes.now) i }
{
    if i < nodes.len() { nodes[i].mask } else { 0 }
}

/// A node as it stands in a line, with its position from the consist's end 1.
#[derive(Clone, Copy)]
pub(crate) struct Placed {
    pub(crate) position: u8,
    pub(crate) node: Node,
}

impl Consist {
    /// Its nodes; where their count is out of range there are none.
    pub(crate) fn nodes(&self) -> &[Node]
        ensures { result.now ≡ nodes_of self.now }
    {
        let count = usize::from(self.count);
        if count <= 4 {
            &self.nodes[0..count]
        } else {
            &self.nodes[0..0]
        }
    }

    /// The masks of its nodes, and zeros behind them.
    pub(crate) fn masks(&self) -> [u8; 4]
        ensures { result ≡ padded (masks_of (nodes_of self.now)) }
    {
        let nodes = self.nodes();
        array::from_fn(|i| mask_at(nodes, i))
    }

    /// The networks that its nodes serve together.
    pub(crate) fn served(&self) -> u8
        ensures { result ≡ together (masks_of (nodes_of self.now)) }
    {
        together(&self.masks())
    }

    /// The node that is met at this step from the left.
    pub(crate) fn met(&self, step: usize) -> Placed
        requires { step < length (nodes_of self.now) }
        ensures { placed_means result ≡ slice_index_or (standing (consist_means self.now)) step nobody }
    {
        let nodes = self.nodes();
        let place = match self.way {
            Way::Forward => step,
            Way::Turned => nodes.len() - 1 - step,
        };
        Placed {
            position: place as u8 + 1,
            node: nodes[place],
        }
    }
}
