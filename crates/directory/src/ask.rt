//! What a directory is asked, by a search through its rows.

ghost use Rattle.std.specs.List.{slice_get};
ghost use Rattle.std.specs.Prelude.{◌≡◌, ◌<◌, ◌≤◌, length, Decides, option_map, not, ◌==◌};
ghost use Rattle.report.specs.Reports.{whole};
ghost use Rattle.train.specs.Rows.{given};
ghost use Rattle.directory.specs.Numbering.{NodesRun};
ghost use Rattle.directory.specs.Meaning.{row_means, rows_mean, rows_of};
ghost use Rattle.directory.specs.Asked.{lowest, highest, nodes_of, position_in, place_of, number_of, network_of};
ghost use Rattle.directory.specs.Keys.{place_told};

use crate::directory::Directory;
use crate::row::{Row, Way};
use crate::search;
use report::Uuid;

impl Row {
    /// Whether two mean the same. Both by value: each part is then known to fit.
    fn is_same(self, other: Row) -> bool
        ensures { Decides result (row_means self ≡ row_means other) }
    {
        self == other
    }
}

/// The position of a row's node, from end 1 of its consist.
pub(crate) fn position_of(rows: &[Row], row: &Row) -> u16
    ensures position { result ≡ position_in (rows_mean rows.now) (row_means row.now) }
    ensures small { NodesRun rows.now → 1 ≤ row.now.node → result < 256 }
{
    let (low, high) = search::span(rows, row.uuid, row.node);
    match row.way {
        Way::Forward => u16::from(row.node - low) + 1,
        Way::Turned => u16::from(high - row.node) + 1,
    }
}

fn row_at(rows: &[Row], i: usize) -> Option<Row>
    ensures { option_map row_means result ≡ slice_get (rows_mean rows.now) i }
{
    rows.get(i).copied()
}

fn place_of(rows: &[Row], number: u8) -> Option<(Uuid, u8)>
    requires { NodesRun rows.now }
    ensures { place_told result ≡ place_of number (rows_mean rows.now) }
{
    let row = search::row_of(rows, number)?;
    Some((row.uuid, position_of(rows, &row) as u8))
}

fn same_rows(rows: &[Row], others: &[Row]) -> bool
    ensures { Decides result (rows_mean rows.now ≡ rows_mean others.now) }
{
    rows.len() == others.len()
        && rows
            .iter()
            .zip(others)
            .all(|(row, other)| row.is_same(*other))
}

impl Directory {
    pub fn row_count(&self) -> usize
        ensures { result ≡ length (rows_of self.now) }
    {
        self.rows().len()
    }

    /// Whether it counts a row.
    pub fn is_in_force(&self) -> bool
        ensures { result ≡ not (length (rows_of self.now) == 0) }
    {
        self.row_count() != 0
    }

    /// The row at a place, counted from 0.
    pub fn row(&self, i: usize) -> Option<Row>
        ensures { option_map row_means result ≡ slice_get (rows_of self.now) i }
    {
        row_at(self.rows(), i)
    }

    /// The UUID and the position, from end 1 of its consist, of the node with this number.
    pub fn node(&self, number: u8) -> Option<(Uuid, u8)>
        ensures { place_told result ≡ place_of number (rows_of self.now) }
    {
        place_of(self.rows(), number)
    }

    /// The number of the node at a position of a consist.
    pub fn number(&self, uuid: Uuid, position: u8) -> Option<u8>
        ensures { result ≡ number_of (whole uuid) position (rows_of self.now) }
    {
        search::number_of(self.rows(), uuid, position)
    }

    /// The subnet of a consist's network.
    pub fn subnet(&self, uuid: Uuid, network: u8) -> Option<u8>
        ensures { result ≡ given (whole uuid) network (rows_of self.now) }
    {
        search::subnet_of(self.rows(), uuid, network)
    }

    /// The UUID and the network of a subnet.
    pub fn network(&self, subnet: u8) -> Option<(Uuid, u8)>
        ensures { place_told result ≡ network_of subnet (rows_of self.now) }
    {
        search::network_of(self.rows(), subnet)
    }

    /// Whether the counted rows of two directories are equal.
    pub fn same(&self, other: &Directory) -> bool
        ensures { Decides result (rows_of self.now ≡ rows_of other.now) }
    {
        same_rows(self.rows(), other.rows())
    }
}
