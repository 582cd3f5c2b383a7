//! Listing: the records of a table, how many they are, and the record at a place.

ghost use Rattle.std.specs.Prelude.{◌≡◌, min, length, take};
ghost use Rattle.std.specs.List.{slice_get};
ghost use Rattle.keyed.specs.Table.{live};

use crate::table::Table;

/// The records in the first `len` slots, or in all the slots if they are fewer.
pub fn records<R>(slots: &[R], len: usize) -> &[R]
    ensures value { result.now ≡ take len slots.now }
    ensures len { length result.now ≡ min len (length slots.now) }
{
    let count = len.min(slots.len());
    &slots[0..count]
}

/// The record at a place, counted from 0.
pub(crate) fn get<R: Copy>(records: &[R], place: usize) -> Option<R>
    ensures { result ≡ slice_get records.now place }
{
    records.get(place).copied()
}

impl<R> Table<'_, R> {
    pub fn records(&self) -> &[R]
        ensures { result.now ≡ live self.now }
    {
        records(self.slots, self.len)
    }

    pub fn len(&self) -> usize
        ensures { result ≡ length (live self.now) }
    {
        self.records().len()
    }
}

impl<R: Copy> Table<'_, R> {
    pub fn get(&self, place: usize) -> Option<R>
        ensures { result ≡ slice_get (live self.now) place }
    {
        get(self.records(), place)
    }
}
