//! Neighbours: whose report is held, and whether it names back.

ghost use Rattle.std.specs.Prelude.{◌≡◌, ◌<◌, not, length, IfSome};
ghost use Rattle.std.specs.Option.{option_map};
ghost use Rattle.report.specs.Reports.{means};
ghost use Rattle.fitting.specs.Neighbours.{place_of as place_in, is_held as held_in, names as names_in, is_backed, is_firm, loose as loose_in};
ghost use Rattle.inauguration.specs.Meaning.{all_mean};

use report::{Mac, Report};

/// Where the report of a MAC stands.
pub(crate) fn place_of(held: &[Report], mac: Mac) -> Option<usize>
    ensures place { result ≡ place_in mac.0 0 (all_mean held.now) }
    ensures within { IfSome result (λ i. i < length held.now) }
{
    held.iter().position(|report| report.mac == mac)
}

/// Whether a report is held under this MAC.
pub(crate) fn is_held(held: &[Report], mac: Mac) -> bool
    ensures { result ≡ held_in mac.0 (all_mean held.now) }
{
    place_of(held, mac).is_some()
}

/// Whether `report` names this MAC on a side.
fn names(report: &Report, mac: Mac) -> bool
    ensures { result ≡ names_in mac.0 (means report.now) }
{
    report.side1 == mac || report.side2 == mac
}

/// Whether `neighbour`, where it is one, has a report held that names `mac`.
fn names_back(held: &[Report], mac: Mac, neighbour: Mac) -> bool
    ensures { result ≡ is_backed (all_mean held.now) mac.0 neighbour.0 }
{
    neighbour == Mac(0) || place_of(held, neighbour).is_some_and(|place| names(&held[place], mac))
}

fn is_loose(held: &[Report], report: &Report) -> bool
    ensures { result ≡ not (is_firm (all_mean held.now) (means report.now)) }
{
    !names_back(held, report.mac, report.side1) || !names_back(held, report.mac, report.side2)
}

/// The own MAC of the first loose report in the order held.
pub(crate) fn loose(held: &[Report]) -> Option<Mac>
    ensures { option_map (λ m. m.0) result ≡ loose_in (all_mean held.now) }
{
    held.iter()
        .find(|report| is_loose(held, report))
        .map(|report| report.mac)
}
