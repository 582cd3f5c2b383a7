//! Rows as bytes, and the counter over them.

ghost use Rattle.std.specs.Prelude.{◌≡◌, ◌+◌, ◌*◌, ◌^◌, ◌≤◌, length, take};
ghost use Rattle.counter.specs.Crc.{crc};
ghost use Rattle.keyed.specs.Table.{written};
ghost use Rattle.train.specs.Bytes.{big_endian, direction as direction_of, row_bytes, rows_bytes};
ghost use Rattle.directory.specs.Meaning.{way_means, row_means, rows_mean, rows_of};
ghost use Rattle.directory.specs.Writing.{write_told, write_answer, write_leaves};

use crate::directory::Directory;
use crate::limits::ROW_BYTES;
use crate::row::{Row, Way};
use counter::Counter;

/// The rows do not fit the buffer: refusal 1.
#[derive(Clone, Copy, PartialEq, Eq, Debug)]
pub struct Short;

/// The direction, from 1, that the last byte of a row is.
impl From<Way> for u8 {
    ghost from_gives = { λ way n. n ≡ direction_of (way_means way) };

    fn from(way: Way) -> u8 {
        match way {
            Way::Forward => 1,
            Way::Turned => 2,
        }
    }
}

/// The bytes of a UUID by its halves, high byte first.
fn uuid(high: u64, low: u64) -> [u8; 16]
    ensures { result ≡ big_endian 16 (high * 2 ^ 64 + low) }
{
    let mut bytes = [0; 16];
    bytes[0..8].copy_from_slice(&high.to_be_bytes());
    bytes[8..16].copy_from_slice(&low.to_be_bytes());
    bytes
}

/// The bytes of a row's word, high byte first.
fn word(network: u8, subnet: u8, node: u8, way: Way) -> [u8; 4]
    ensures { result ≡ big_endian 4 (network * 2 ^ 24 + subnet * 2 ^ 16 + node * 2 ^ 8 + direction_of (way_means way)) }
{
    [network, subnet, node, u8::from(way)]
}

impl Row {
    /// The UUID and then the word.
    fn bytes(&self) -> [u8; ROW_BYTES]
        ensures { result ≡ row_bytes (row_means self.now) }
    {
        let mut bytes = [0; ROW_BYTES];
        bytes[0..16].copy_from_slice(&uuid(self.uuid.high, self.uuid.low));
        bytes[16..ROW_BYTES].copy_from_slice(&word(self.network, self.subnet, self.node, self.way));
        bytes
    }
}

/// Writes rows at the front of a buffer.
fn put(rows: &[Row], out: &mut [u8])
    requires { 20 * length rows.now ≤ length out.old }
    ensures { out.new ≡ written (rows_bytes (rows_mean rows.now)) out.old }
{
    for (i, row) in rows.iter().enumerate() {
        let at = ROW_BYTES * i;
        out[at..at + ROW_BYTES].copy_from_slice(&row.bytes());
    }
}

fn count(rows: &[Row]) -> u32
    ensures { result ≡ crc (rows_bytes (rows_mean rows.now)) }
{
    let mut counter = Counter::start();
    for row in rows {
        counter.take(&row.bytes());
    }
    counter.finish()
}

impl Directory {
    /// The counted rows.
    pub fn rows(&self) -> &[Row]
        ensures rows { result.now ≡ take self.now.count self.now.rows }
        ensures many { length result.now ≡ length (rows_of self.now) }
    {
        &self.rows[0..self.count]
    }

    /// Writes the rows, 20 bytes each, at the front of the buffer and gives their number; what lies behind stays.
    pub fn write(&self, out: &mut [u8]) -> Result<usize, Short>
        ensures answer { write_told result ≡ write_answer (rows_of self.now) (length out.old) }
        ensures buffer { out.new ≡ write_leaves (rows_of self.now) out.old }
    {
        let rows = self.rows();
        if out.len() < ROW_BYTES * rows.len() {
            return Err(Short);
        }
        put(rows, out);
        Ok(rows.len())
    }

    /// The CRC of the rows' bytes.
    pub fn counter(&self) -> u32
        ensures { result ≡ crc (rows_bytes (rows_of self.now)) }
    {
        count(self.rows())
    }
}
