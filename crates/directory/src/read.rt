//! A row out of its bytes.

ghost use Rattle.std.specs.Prelude.{◌≡◌, ◌+◌, ◌*◌, ◌^◌, IfOk, IsOk, IfSome, IsSome, ◌↔◌, ◌≤◌, length, slice_index};
ghost use Rattle.train.specs.Bytes.{big_endian, direction as direction_of, row_bytes};
ghost use Rattle.directory.specs.Meaning.{way_means, row_means};

use crate::row::{Row, Way};
use report::Uuid;

/// The number that 8 bytes write, high byte first.
fn half(bytes: &[u8; 8]) -> u64
    ensures { big_endian 8 result ≡ bytes.now }
{
    u64::from_be_bytes(*bytes)
}

/// A byte that is no direction: neither 1 nor 2.
#[derive(Clone, Copy, PartialEq, Eq, Debug)]
pub struct UnknownDirection;

impl TryFrom<u8> for Way {
    type Error = UnknownDirection;

    ghost try_from_gives = { λ n r. IfOk r (λ way. direction_of (way_means way) ≡ n) × (IsOk r ↔ ((1 ≤ n) × (n ≤ 2))) };

    fn try_from(direction: u8) -> Result<Way, UnknownDirection> {
        match direction {
            1 => Ok(Way::Forward),
            2 => Ok(Way::Turned),
            _ => Err(UnknownDirection),
        }
    }
}

impl Row {
    /// The row that has these 20 bytes, if the last is a direction.
    pub fn read(bytes: &[u8]) -> Option<Row>
        ensures row { IfSome result (λ row. row_bytes (row_means row) ≡ bytes.now) }
        ensures some { IsSome result ↔ ((length bytes.now ≡ 20) × (1 ≤ slice_index bytes.now 19) × (slice_index bytes.now 19 ≤ 2)) }
    {
        let (high, rest) = bytes.split_first_chunk::<8>()?;
        let (low, word) = rest.split_first_chunk::<8>()?;
        let [network, subnet, node, direction] = *word else {
            return None;
        };
        let way = Way::try_from(direction).ok()?;
        Some(Row {
            uuid: Uuid {
                high: half(high),
                low: half(low),
            },
            network,
            subnet,
            node,
            way,
        })
    }
}
