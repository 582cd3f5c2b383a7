//! Masks: a node with a mask serves network `i` where bit `i - 1` is set.

ghost use Rattle.std.specs.Prelude.{◌≡◌, ◌*◌, ◌^◌, ◌≤◌, ◌-◌, min, length};
ghost use Rattle.report.specs.Masks.{together, unbroken, networks, set_bits};

/// The networks that masks serve together.
pub fn together(masks: &[u8]) -> u8
    ensures { result ≡ together masks.now }
{
    masks.iter().fold(0, |all, mask| all | mask)
}

/// Whether a mask serves the networks from 1 to its highest without a gap.
pub fn is_gapless(mask: u8) -> bool
    ensures { result ≡ unbroken mask }
{
    let all = u16::from(mask);
    // One more carries through the low bits that are set, and leaves any above them.
    all & (all + 1) == 0
}

/// How many networks masks serve together.
#[tactic(auto, using(crate::proofs::SetBits::networks_are_ones))]
pub fn network_count(masks: &[u8]) -> u32
    ensures count { result ≡ length (networks (together masks.now)) }
    ensures few { result ≤ 8 }
{
    together(masks).count_ones()
}

/// How many bits of masks are set. A slice can have more than the number holds: the sum stops at the top.
pub fn bit_count(masks: &[u8]) -> u32
    ensures count { result ≡ min (set_bits masks.now) (2 ^ 32 - 1) }
    ensures few { result ≤ 8 * length masks.now }
{
    masks.iter().fold(0, |bits: u32, mask| bits.saturating_add(mask.count_ones()))
}
