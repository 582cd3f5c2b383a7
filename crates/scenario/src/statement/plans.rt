//! The plan at hand and its places: `plan` and `place`.

ghost use Rattle.std.specs.Prelude.{◌≡◌};
ghost use Rattle.plan.specs.Places.{located, placed};

use crate::complaint::{Complaint, NoStatement};
use crate::number::small;
use crate::words::Words;
use any_plan::AnyPlan;
use plan::{Consist, Place, Train};

/// `home S` as often as wanted, from the outermost, then `train B` or `consist S`.
pub fn plan<'a>(words: &mut Words<'a>) -> Result<AnyPlan, NoStatement<'a>> {
    let heap = words.heap;
    let mut homes = Vec::new(heap);
    let mut lowest = None;
    // The word of a layer whose number stands next.
    let mut layer = None;
    for token in words.tokens.by_ref() {
        layer = match (layer, token) {
            _ if lowest.is_some() => return Err(Complaint::Extra(token).into()),
            (None, "train" | "consist" | "home") => Some(token),
            (None, _) => return Err(Complaint::NotAPlan(token).into()),
            (Some("train"), _) => {
                let backbone = small(token)?;
                lowest = Some(AnyPlan::Train(Train { backbone }));
                None
            }
            (Some("consist"), _) => {
                let subnet = small(token)?;
                lowest = Some(AnyPlan::Consist(Consist { subnet }));
                None
            }
            (Some(_), _) => {
                homes.push(small(token)?)?;
                None
            }
        };
    }
    let mut plan = lowest.ok_or(Complaint::Missing(match layer {
        Some("train") => "a backbone",
        Some(_) => "a subnet",
        None => "a plan",
    }))?;
    for subnet in homes.iter().rev() {
        plan = AnyPlan::home(heap, *subnet, plan)?;
    }
    Ok(plan)
}

/// A place out of range is none.
pub fn place<'a>(words: &mut Words<'a>) -> Result<Option<Place>, Complaint<'a>> {
    let subnet = words.decimal("a subnet", u64::MAX)?;
    let host = words.decimal("a host", u64::MAX)?;
    Ok(place_of(subnet, host))
}

fn place_of(subnet: u64, host: u64) -> Option<Place>
    ensures { located result ≡ placed (subnet, host) }
{
    Place::new(u8::try_from(subnet).ok()?, u16::try_from(host).ok()?)
}
