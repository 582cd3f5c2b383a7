//! The node's type, and its start.

ghost use Rattle.std.specs.Prelude.{◌≡◌, min, length};
ghost use Rattle.runs.specs.Calls.{fresh};
ghost use Rattle.node.specs.Seen.{seen};

use directory::Directory;
use directory::limits::NODES;
use keyed::Table;
use report::{Mac, Report};

/// A node over memory that it is lent.
#[derive(Drop)]
pub struct Node<'m> {
    pub(crate) mac: Mac,
    pub(crate) reports: Table<'m, Report>,
    /// How many holds are out.
    pub(crate) holds: u8,
    /// One that counts no row is not in force.
    pub(crate) directory: Directory,
}

impl<'m> Node<'m> {
    /// Holds as many reports as fit the memory, at most 63; nothing that stands there counts.
    pub fn start(mac: Mac, memory: &'m mut [Report]) -> Node<'m>
        ensures { seen result ≡ fresh mac.0 (length memory.old) }
    {
        let room = memory.len().min(NODES);
        Node {
            mac,
            reports: Table::new(&mut memory[..room], 0),
            holds: 0,
            directory: Directory::none(),
        }
    }
}
