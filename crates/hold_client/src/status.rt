//! The status of a node, asked under a hold.

ghost use Rattle.std.specs.Prelude.{◌≡◌};
ghost use Rattle.runs.specs.Calls.{status_reply};
ghost use Rattle.node.specs.Seen.{seen};
ghost use Rattle.node.specs.Told.{status_told};
ghost use Rattle.hold_client.specs.Held.{if_free, no_hold, read_told};

use crate::fault::{HoldFault, StatusFault};
use node::{Node, Status};

/// The status of the node with this number. The hold is returned on every way out.
pub fn read_status(node: &mut Node<'_>, number: u8) -> Result<Status, StatusFault>
    ensures answer { read_told status_told result ≡ if_free (seen node.old) (status_reply (seen node.old) number) no_hold }
    ensures node { seen node.new ≡ seen node.old }
{
    // Written out as in `read_directory`: a proof would know nothing of a buffer that a closure writes under the hold.
    let hold = node.hold()?;
    let answer = node.status(number);
    node.give_back(hold);
    answer.map_err(HoldFault::Refused)
}
