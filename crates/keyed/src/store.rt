//! Storing: a record goes to its place, or replaces the one under an equal key.

ghost use Rattle.std.specs.Prelude.{◌≡◌, ◌<◌, ◌≤◌, length, take, slice_set};
ghost use Rattle.std.specs.List.{insert};
ghost use Rattle.keyed.specs.Table.{live, written};
ghost use Rattle.keyed.specs.Rising.{Rising};
ghost use Rattle.keyed.specs.Store.{store_answer, store_keeps, store_leaves};
ghost use Rattle.keyed.specs.Map.{TableIsMap};

use crate::find::place_of;
use crate::list::records;
use crate::record::Record;
use crate::table::Table;

/// The key is new, and every place is taken.
#[derive(Clone, Copy, PartialEq, Eq, Debug)]
pub struct Full;

/// Writes `item` over the record at `at`, and answers how many records there are.
fn replace<R: Drop>(slots: &mut [R], len: usize, at: usize, item: R) -> usize
    requires { (at < len) × (at < length slots.old) }
    ensures count { result ≡ length (slice_set (take len slots.old) at item) }
    ensures slots { slots.new ≡ written (slice_set (take len slots.old) at item) slots.old }
{
    slots[at] = item;
    len.min(slots.len())
}

/// Puts `item` in at `at`, moves each later record up by one, and answers how many records there are.
fn insert<R: Drop>(slots: &mut [R], len: usize, at: usize, item: R) -> usize
    requires { (at ≤ len) × (len < length slots.old) }
    ensures count { result ≡ length (insert (take len slots.old) at item) }
    ensures slots { slots.new ≡ written (insert (take len slots.old) at item) slots.old }
{
    slots[len] = item;
    slots[at..len + 1].rotate_right(1);
    len + 1
}

/// Answers how many records there are then.
fn store<R: Record + Copy>(slots: &mut [R], len: usize, item: R) -> Result<usize, Full>
    ensures answer { result ≡ store_answer R.Key.Key.order R.Record.under item (length slots.old) (take len slots.old) }
    ensures slots { slots.new ≡ store_leaves R.Key.Key.order R.Record.under item slots.old (take len slots.old) }
{
    let live = records(slots, len);
    match place_of(live, &item.key()) {
        Ok(at) => Ok(replace(slots, len, at, item)),
        Err(at) if len < slots.len() => Ok(insert(slots, len, at, item)),
        Err(_) => Err(Full),
    }
}

impl<R: Record + Copy> Table<'_, R> {
    /// Answers how many records there are then.
    pub fn store(&mut self, item: R) -> Result<usize, Full>
        ensures answer { result ≡ store_answer R.Key.Key.order R.Record.under item (length self.old.slots.now) (live self.old) }
        ensures live { live self.new ≡ store_keeps R.Key.Key.order R.Record.under item (length self.old.slots.now) (live self.old) }
        ensures slots { self.new.slots.now ≡ store_leaves R.Key.Key.order R.Record.under item self.old.slots.now (live self.old) }
        ensures rising { Rising R.Key.Key.order R.Record.under (live self.old) → Rising R.Key.Key.order R.Record.under (live self.new) }
        ensures lender { self.new.slots.ghost_name ≡ self.old.slots.ghost_name }
        ensures map { TableIsMap R.Key.Key.order R.Record.under }
    {
        let len = self.len;
        let count = store(self.slots, len, item)?;
        self.len = count;
        Ok(count)
    }
}
