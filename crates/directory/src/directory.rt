//! The directory's type: at most 128 rows are counted, and their node and subnet numbers run from 1 without a gap.

ghost use Rattle.std.specs.Prelude.{◌≤◌, take};
ghost use Rattle.directory.specs.Numbering.{NodesRun, SubnetsRun};

use crate::row::{ROWS, Row};

/// The rows of a line, in an array with their count beside: a directory is memory of fixed size, without a heap.
// One that counts no row is not in force: a fresh directory is 128 blank rows, and C and the wire have no other sign.
// A UUID is asked with a position or with a network as two arguments, as the rules ask it: a struct of both would be no
// plainer, as the two pairs mean different things and each is taken apart at once.
#[derive(Clone, Copy)]
pub struct Directory {
    pub(crate) rows: [Row; ROWS],
    pub(crate) count: usize,
    ghost within: { count ≤ 128 },
    ghost numbered: { NodesRun (take count rows) },
    ghost subnetted: { SubnetsRun (take count rows) },
}
