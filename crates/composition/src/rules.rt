//! The rules on lines, looked at in their order.

ghost use Rattle.std.specs.Prelude.{◌≡◌, ◌==◌, map, is_some, filter_map};
ghost use Rattle.std.specs.Option.{option_map};
ghost use Rattle.std.specs.List.{flat_map, list_any};
ghost use Rattle.report.specs.Reports.{whole};
ghost use Rattle.composition.specs.Meaning.{node_means, nodes_of, consist_means, described};
ghost use Rattle.composition.specs.Faults.{told, mask_fault, mac_fits, mac_fault, macs_in, consist_fault, consists_fault, repeats, mac_row, uuid_fault, mac_twice_fault, limit_fault, line_fault};
ghost use Rattle.composition.specs.Exact.{Exactly};

use crate::{Consist, ConsistFault, ConsistRule, LineFault, Node};
use directory::limits::{BITS, NETWORKS, NODES};
use report::mask::{bit_count, is_gapless, network_count};
use report::{Mac, Uuid};

/// Whether a node is asleep or has a MAC in its range.
fn is_mac(mac: Option<Mac>) -> bool
    ensures { result ≡ mac_fits (option_map (λ m. m.0) mac) }
{
    match mac {
        Some(mac) => mac.is_valid(),
        None => true,
    }
}

/// Whether every node has a mask; else which has none.
fn check_masks(nodes: &[Node]) -> Result<(), ConsistRule>
    ensures { result ≡ told (mask_fault 1 (map node_means nodes.now)) }
{
    for (i, node) in nodes.iter().enumerate() {
        if node.mask == 0 {
            return Err(ConsistRule::NoNetwork(i + 1));
        }
    }
    Ok(())
}

/// Whether every MAC is in its range; else which is not. Not one function with the masks: a test and a rule handed in would
/// need a contract longer than both loops.
fn check_mac_ranges(nodes: &[Node]) -> Result<(), ConsistRule>
    ensures { result ≡ told (mac_fault 1 (map node_means nodes.now)) }
{
    for (i, node) in nodes.iter().enumerate() {
        if !is_mac(node.mac) {
            return Err(ConsistRule::WrongMac(i + 1));
        }
    }
    Ok(())
}

fn is_any_awake(nodes: &[Node]) -> bool
    ensures { result ≡ list_any (λ n. is_some n.mac) nodes.now }
{
    nodes.iter().any(|node| node.mac.is_some())
}

impl Consist {
    /// Whether it keeps the rules on a consist; else the first that it breaks.
    fn check(&self) -> Result<(), ConsistRule>
        ensures { result ≡ told (consist_fault (consist_means self.now).consist) }
    {
        if !self.uuid.is_valid() {
            return Err(ConsistRule::NoUuid);
        }
        let nodes = self.nodes();
        if nodes.is_empty() {
            return Err(ConsistRule::NodeCount);
        }
        check_masks(nodes)?;
        if !is_gapless(self.served()) {
            return Err(ConsistRule::Gap);
        }
        if !is_any_awake(nodes) {
            return Err(ConsistRule::NoneAwake);
        }
        check_mac_ranges(nodes)
    }
}

/// Whether every consist keeps the rules on it; else the first that does not.
fn check_consists(consists: &[Consist]) -> Result<(), ConsistFault>
    ensures { result ≡ told (consists_fault 0 (described consists.now)) }
{
    for (place, consist) in consists.iter().enumerate() {
        if let Err(rule) = consist.check() {
            return Err(ConsistFault { place, rule });
        }
    }
    Ok(())
}

fn has_uuid(consists: &[Consist], uuid: Uuid) -> bool
    ensures { result ≡ list_any (λ c. whole uuid == whole c.uuid) consists.now }
{
    consists.iter().any(|consist| uuid.is_same(consist.uuid))
}

/// Whether UUIDs differ; else the place of the first that stands before it.
fn check_uuids(consists: &[Consist]) -> Result<(), LineFault>
    ensures { result ≡ told (uuid_fault (described consists.now)) }
{
    for (place, consist) in consists.iter().enumerate() {
        if has_uuid(&consists[0..place], consist.uuid) {
            return Err(LineFault::UuidTwice(place));
        }
    }
    Ok(())
}

fn is_in_nodes(nodes: &[Node], mac: Mac) -> bool
    ensures { result ≡ list_any (λ m. mac.0 == m.0) (filter_map (λ n. n.mac) nodes.now) }
{
    nodes
        .iter()
        .filter_map(|node| node.mac)
        .any(|other| mac == other)
}

fn is_in_consists(consists: &[Consist], mac: Mac) -> bool
    ensures { result ≡ list_any (λ c. list_any (λ m. mac.0 == m.0) (filter_map (λ n. n.mac) (nodes_of c))) consists.now }
{
    consists
        .iter()
        .any(|consist| is_in_nodes(consist.nodes(), mac))
}

/// Whether a node has a MAC that stands before it, in an earlier consist or in its own.
fn repeats_mac(before: &[Consist], nodes: &[Node]) -> bool
    ensures { result ≡ repeats (flat_map mac_row (described before.now)) (macs_in (map node_means nodes.now)) }
{
    for (i, node) in nodes.iter().enumerate() {
        if let Some(mac) = node.mac {
            if is_in_consists(before, mac) || is_in_nodes(&nodes[0..i], mac) {
                return true;
            }
        }
    }
    false
}

/// Whether MACs differ; else the place of the first consist with one that stands before it. Not one function with the UUIDs: a
/// test and a fault handed in would need a contract longer than both loops.
fn check_macs(consists: &[Consist]) -> Result<(), LineFault>
    ensures { result ≡ told (mac_twice_fault (described consists.now)) }
{
    for (place, consist) in consists.iter().enumerate() {
        if repeats_mac(&consists[0..place], consist.nodes()) {
            return Err(LineFault::MacTwice(place));
        }
    }
    Ok(())
}

/// Whether the limits hold; else the first that is passed. A described train may have any number of consists, so its sums
/// stop at the top; those of an inauguration cannot pass it.
pub(crate) fn check_limits(consists: &[Consist]) -> Result<(), LineFault>
    ensures { result ≡ told (limit_fault (described consists.now)) }
{
    let mut nodes: usize = 0;
    let mut networks: u32 = 0;
    let mut bits: u32 = 0;
    for consist in consists {
        let masks = consist.masks();
        nodes = nodes.saturating_add(consist.nodes().len());
        networks = networks.saturating_add(network_count(&masks));
        bits = bits.saturating_add(bit_count(&masks));
    }
    if nodes > NODES {
        Err(LineFault::Nodes)
    } else if networks > NETWORKS {
        Err(LineFault::Networks)
    } else if bits > BITS {
        Err(LineFault::Bits)
    } else {
        Ok(())
    }
}

/// Whether the consists are a line within the limits; else the first rule that they break.
pub(crate) fn check_line(consists: &[Consist]) -> Result<(), LineFault>
    ensures fault { result ≡ told (line_fault (described consists.now)) }
    ensures exact { Exactly (described consists.now) result }
{
    if consists.is_empty() {
        return Err(LineFault::NoConsist);
    }
    check_consists(consists)?;
    check_uuids(consists)?;
    check_macs(consists)?;
    check_limits(consists)
}
