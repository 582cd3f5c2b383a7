//! From a device by its place to an address, and back.

ghost use Rattle.std.specs.Prelude.{◌≡◌};
ghost use Rattle.plan.specs.Places.{place_means, located};
ghost use Rattle.directory.specs.Meaning.{rows_of};
ghost use Rattle.addressing.specs.Devices.{device_means, device_told, device_place, device_at};
ghost use Rattle.addressing.specs.Addressing.{address_told, trace_told, addressed, traced};
ghost use Rattle.addressing.specs.OwnAddresses.{OwnAddress};

use crate::device::{Device, Refused};
use directory::Directory;
use plan::{Place, Plan};

/// The place of a device that the directory has.
fn place_of(directory: &Directory, device: Device) -> Option<Place>
    ensures { located result ≡ device_place (rows_of directory.now) (device_means device) }
{
    match device {
        Device::Host {
            uuid,
            network,
            host,
        } => {
            let subnet = directory.subnet(uuid, network)?;
            Place::new(subnet, host)
        }
        Device::Node { uuid, position } => {
            let number = directory.number(uuid, position)?;
            Place::new(0, u16::from(number))
        }
    }
}

/// The device that the directory has at a place.
fn device_at(directory: &Directory, place: Place) -> Option<Device>
    ensures { device_told result ≡ device_at (rows_of directory.now) (place_means place) }
{
    let (subnet, host) = (place.subnet(), place.host());
    if subnet == 0 {
        // A node's number has 8 bits.
        let number = u8::try_from(host).ok()?;
        let (uuid, position) = directory.node(number)?;
        Some(Device::Node { uuid, position })
    } else {
        let (uuid, network) = directory.network(subnet)?;
        Some(Device::Host {
            uuid,
            network,
            host,
        })
    }
}

/// The address that the plan gives to the place of a device.
#[tactic(auto, using(crate::proofs::OwnAddresses::own_address))]
pub fn address<P: Plan>(directory: &Directory, plan: &P, device: Device) -> Result<u32, Refused>
    ensures answer { address_told result ≡ addressed (P.means plan.now).serves (rows_of directory.now) (device_means device) }
    ensures own { OwnAddress }
{
    if !directory.is_in_force() {
        return Err(Refused::NoDirectory);
    }
    let place = place_of(directory, device).ok_or(Refused::Absent)?;
    let Some(address) = plan.address(place) else {
        return Err(Refused::Absent);
    };
    Ok(address)
}

/// The device whose place has this address.
#[tactic(auto, using(crate::proofs::OwnAddresses::own_address))]
pub fn trace<P: Plan>(directory: &Directory, plan: &P, address: u32) -> Result<Device, Refused>
    ensures answer { trace_told result ≡ traced (P.means plan.now).stands (rows_of directory.now) address }
    ensures own { OwnAddress }
{
    if !directory.is_in_force() {
        return Err(Refused::NoDirectory);
    }
    let Some(place) = plan.place_at(address) else {
        return Err(Refused::Absent);
    };
    device_at(directory, place).ok_or(Refused::Absent)
}
