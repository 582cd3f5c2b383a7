//! The directory, read under a hold.

ghost use Rattle.std.specs.Prelude.{◌≡◌, length};
ghost use Rattle.runs.specs.Calls.{told, rows, directory_answer};
ghost use Rattle.directory.specs.Writing.{write_leaves};
ghost use Rattle.node.specs.Seen.{seen};
ghost use Rattle.node.specs.Told.{directory_told};
ghost use Rattle.hold_client.specs.Held.{if_free, no_hold, read_told};

use crate::fault::{HoldFault, ReadFault};
use node::Node;

/// Writes the rows of the node's directory at the front of the buffer, and answers their number. The hold is returned on
/// every way out.
pub fn read_directory(node: &mut Node<'_>, out: &mut [u8]) -> Result<usize, ReadFault>
    ensures answer { read_told directory_told result ≡ if_free (seen node.old) (told rows (directory_answer (seen node.old).rows (length out.old))) no_hold }
    ensures buffer { out.new ≡ if_free (seen node.old) (write_leaves (seen node.old).rows out.old) out.old }
    ensures node { seen node.new ≡ seen node.old }
{
    let hold = node.hold()?;
    let answer = node.directory(out);
    node.give_back(hold);
    answer.map_err(HoldFault::Refused)
}
