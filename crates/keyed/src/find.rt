//! Finding: the record under a key.

ghost use Rattle.std.specs.Prelude.{◌≡◌, length};
ghost use Rattle.keyed.specs.Find.{place_of, Within, found};
ghost use Rattle.keyed.specs.Table.{live};

use crate::key::Key;
use crate::list::get;
use crate::record::Record;
use crate::table::Table;
use std::cmp::Ordering;

/// Where the record under a key stands, or else before which place it belongs: the first record whose key is not less
/// decides. In a table that does not rise, as a caller may lend one, halving would find another place.
pub(crate) fn place_of<R: Record>(records: &[R], key: &R::Key) -> Result<usize, usize>
    ensures place { result ≡ place_of R.Key.Key.order R.Record.under key.now records.now }
    ensures within { Within (length records.now) result }
{
    for (i, item) in records.iter().enumerate() {
        match item.key().compare(key) {
            Ordering::Less => {}
            Ordering::Equal => return Ok(i),
            Ordering::Greater => return Err(i),
        }
    }
    Err(records.len())
}

/// In any records, as those that `Table::records` gives.
pub fn find<R: Record + Copy>(records: &[R], key: &R::Key) -> Option<R>
    ensures { result ≡ found R.Key.Key.order R.Record.under key.now records.now }
{
    match place_of(records, key) {
        Ok(at) => get(records, at),
        Err(_) => None,
    }
}

impl<R: Record + Copy> Table<'_, R> {
    pub fn find(&self, key: &R::Key) -> Option<R>
        ensures { result ≡ found R.Key.Key.order R.Record.under key.now (live self.now) }
    {
        find(self.records(), key)
    }
}
