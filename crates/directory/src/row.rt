//! A row of the directory, and a node as it is met where a line is read.

ghost use Rattle.std.specs.Prelude.{◌≡◌};
ghost use Rattle.train.specs.Line.{other};
ghost use Rattle.directory.specs.Meaning.{way_means};

use crate::limits::BITS;
use report::Uuid;

/// How a consist stands in the reading: forward with its end 1 first, or turned.
#[derive(Clone, Copy, PartialEq, Eq, Default, Debug)]
pub enum Way {
    #[default]
    Forward,
    Turned,
}

impl Way {
    /// The way round as it is seen from the other end of the line.
    pub fn other(self) -> Way
        ensures { way_means result ≡ other (way_means self) }
    {
        match self {
            Way::Forward => Way::Turned,
            Way::Turned => Way::Forward,
        }
    }
}

/// A node serves a network of its consist.
#[derive(Clone, Copy, PartialEq, Eq, Debug)]
pub struct Row {
    pub uuid: Uuid,
    pub network: u8,
    pub subnet: u8,
    pub node: u8,
    pub way: Way,
}

/// A row that was never filled.
pub const BLANK: Row = Row {
    uuid: Uuid { high: 0, low: 0 },
    network: 0,
    subnet: 0,
    node: 0,
    way: Way::Forward,
};

/// A node as it is met in the reading: bit `i - 1` of its mask says that it serves network `i`.
#[derive(Clone, Copy, Default)]
pub struct MetNode {
    pub uuid: Uuid,
    pub mask: u8,
    pub way: Way,
}

/// The rows that a directory has room for.
pub(crate) const ROWS: usize = BITS as usize;

/// The rows of a directory while they are filled, in an array with their count beside, as there is no heap. The invariant of
/// a directory is not kept here: it is shown of the finished rows.
#[derive(Clone, Copy)]
pub(crate) struct Draft {
    pub(crate) rows: [Row; ROWS],
    pub(crate) count: usize,
}
