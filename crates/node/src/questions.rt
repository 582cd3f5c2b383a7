//! Questions: they change nothing in the node.

ghost use Rattle.std.specs.Prelude.{◌≡◌, ◌&&◌, map, ◌==◌};
ghost use Rattle.report.specs.Reports.{whole, means};
ghost use Rattle.addressing.specs.Devices.{device_means};
ghost use Rattle.plan.specs.Meaning.{Meaning};
ghost use Rattle.runs.specs.Calls.{Step, Does, event, directory as ask_directory, status as ask_status, address as ask_address, trace as ask_trace, is_awake as awake_among};
ghost use Rattle.node.specs.Seen.{seen};
ghost use Rattle.node.specs.Told.{directory_told, is_awake_told, status_told, address_answer, trace_answer};

use crate::fault::DirectoryFault;
use crate::node::Node;
use crate::status::{Presence, Status};
use addressing::{Device, Refused};
use plan::Plan;
use report::{Report, Uuid};

/// Whether a report is of the node at this position of this consist.
fn is_of(report: &Report, uuid: Uuid, position: u8) -> bool
    ensures { result ≡ ((means report.now).uuid == whole uuid) && (report.now.position == position) }
{
    report.uuid.is_same(uuid) && report.position == position
}

/// Whether a report held is of the node at this position of this consist.
fn is_awake(held: &[Report], uuid: Uuid, position: u8) -> bool
    ensures { result ≡ awake_among (whole uuid) position (map means held.now) }
{
    held.iter().any(|report| is_of(report, uuid, position))
}

impl Node<'_> {
    /// Whether the node at this position of this consist is awake.
    fn presence(&self, uuid: Uuid, position: u8) -> Presence
        ensures { is_awake_told result ≡ awake_among (whole uuid) position (seen self.now).held }
    {
        if is_awake(self.reports.records(), uuid, position) {
            Presence::Awake
        } else {
            Presence::Silent
        }
    }

    /// Writes the rows of the directory in force, 20 bytes each, at the front of the buffer and answers their number.
    #[tactic(auto, using(crate::proofs::Steps::quiet))]
    pub fn directory(&self, out: &mut [u8]) -> Result<usize, DirectoryFault>
        ensures { (plan : Meaning) → Step plan (seen self.now) (event ask_directory (directory_told result) out.old out.new) (seen self.now) }
    {
        if !self.directory.is_in_force() {
            return Err(DirectoryFault::NoDirectory);
        }
        Ok(self.directory.write(out)?)
    }

    /// The consist and the position of the node with this number, and whether it is awake.
    #[tactic(auto, using(crate::proofs::Steps::quiet))]
    pub fn status(&self, number: u8) -> Result<Status, Refused>
        ensures { (plan : Meaning) → Does plan (seen self.now) (ask_status number) (status_told result) (seen self.now) }
    {
        if !self.directory.is_in_force() {
            return Err(Refused::NoDirectory);
        }
        let (uuid, position) = self.directory.node(number).ok_or(Refused::Absent)?;
        Ok(Status {
            uuid,
            position,
            presence: self.presence(uuid, position),
        })
    }

    /// The address that the plan gives to a device.
    #[tactic(auto, using(crate::proofs::Steps::quiet))]
    pub fn address<P: Plan>(&self, plan: &P, device: Device) -> Result<u32, Refused>
        ensures { Does (P.means plan.now) (seen self.now) (ask_address (device_means device)) (address_answer result) (seen self.now) }
    {
        addressing::address(&self.directory, plan, device)
    }

    /// The device that has the address under the plan.
    #[tactic(auto, using(crate::proofs::Steps::quiet))]
    pub fn trace<P: Plan>(&self, plan: &P, address: u32) -> Result<Device, Refused>
        ensures { Does (P.means plan.now) (seen self.now) (ask_trace address) (trace_answer result) (seen self.now) }
    {
        addressing::trace(&self.directory, plan, address)
    }
}
