//! Searches through rows.

ghost use Rattle.std.specs.Prelude.{◌≡◌, ◌==◌, min, max, map, filter, find, fold};
ghost use Rattle.report.specs.Reports.{whole};
ghost use Rattle.train.specs.Rows.{given};
ghost use Rattle.directory.specs.Meaning.{rows_mean};
ghost use Rattle.directory.specs.Asked.{number_of, network_of};
ghost use Rattle.directory.specs.Keys.{place_told};

use crate::ask::position_of;
use crate::row::Row;
use report::Uuid;

/// The lowest and the highest number of a consist's nodes, `number` among them.
pub(crate) fn span(rows: &[Row], uuid: Uuid, number: u8) -> (u8, u8)
    ensures { result ≡ fold (λ s n. (min s.0 n, max s.1 n)) (number, number) (map (λ r. r.node) (filter (λ r. whole r.uuid == whole uuid) rows.now)) }
{
    rows.iter()
        .filter(|row| row.uuid.is_same(uuid))
        .map(|row| row.node)
        .fold(
            (number, number),
            |(low, high), node| (low.min(node), high.max(node)),
        )
}

/// The first row of the node with this number.
pub(crate) fn row_of(rows: &[Row], number: u8) -> Option<Row>
    ensures { result ≡ find (λ r. r.node == number) rows.now }
{
    rows.iter().copied().find(|row| row.node == number)
}

/// The number of the node at a position of a consist, from its first row.
pub(crate) fn number_of(rows: &[Row], uuid: Uuid, position: u8) -> Option<u8>
    ensures { result ≡ number_of (whole uuid) position (rows_mean rows.now) }
{
    rows.iter()
        .find(|row| row.uuid.is_same(uuid) && position_of(rows, row) == u16::from(position))
        .map(|row| row.node)
}

/// The subnet of a consist's network, from its first row.
pub(crate) fn subnet_of(rows: &[Row], uuid: Uuid, network: u8) -> Option<u8>
    ensures { result ≡ given (whole uuid) network (rows_mean rows.now) }
{
    rows.iter()
        .find(|row| row.is_of(uuid, network))
        .map(|row| row.subnet)
}

/// The consist and the network of a subnet, from its first row.
pub(crate) fn network_of(rows: &[Row], subnet: u8) -> Option<(Uuid, u8)>
    ensures { place_told result ≡ network_of subnet (rows_mean rows.now) }
{
    rows.iter()
        .find(|row| row.subnet == subnet)
        .map(|row| (row.uuid, row.network))
}
