//! Removing: a record is taken out, and its place is free again.

ghost use Rattle.std.specs.Prelude.{◌≡◌, ◌<◌, length, take};
ghost use Rattle.std.specs.List.{remove as removed_at};
ghost use Rattle.keyed.specs.Table.{live, written};
ghost use Rattle.keyed.specs.Rising.{Rising};
ghost use Rattle.keyed.specs.Find.{found};
ghost use Rattle.keyed.specs.Remove.{removed, remove_leaves};

use crate::find::place_of;
use crate::list::{get, records};
use crate::record::Record;
use crate::table::Table;

/// Takes the record at `at` out, moves each later one down by one, and answers how many are left.
fn take_out<R: Copy>(slots: &mut [R], len: usize, at: usize) -> usize
    requires { (at < len) × (at < length slots.old) }
    ensures count { result ≡ length (removed_at (take len slots.old) at) }
    ensures slots { slots.new ≡ written (removed_at (take len slots.old) at) slots.old }
{
    let len = len.min(slots.len());
    slots.copy_within(at + 1..len, at);
    len - 1
}

/// Answers the record that was under the key, and how many are left.
fn remove<R: Record + Copy>(slots: &mut [R], len: usize, key: &R::Key) -> (Option<R>, usize)
    ensures answer { result.0 ≡ found R.Key.Key.order R.Record.under key.now (take len slots.old) }
    ensures count { result.1 ≡ length (removed R.Key.Key.order R.Record.under key.now (take len slots.old)) }
    ensures slots { slots.new ≡ remove_leaves R.Key.Key.order R.Record.under key.now slots.old (take len slots.old) }
{
    let live = records(slots, len);
    match place_of(live, key) {
        Ok(at) => {
            let item = get(live, at);
            (item, take_out(slots, len, at))
        }
        Err(_) => (None, live.len()),
    }
}

impl<R: Record + Copy> Table<'_, R> {
    /// Answers the record that was under the key.
    pub fn remove(&mut self, key: &R::Key) -> Option<R>
        ensures answer { result ≡ found R.Key.Key.order R.Record.under key.now (live self.old) }
        ensures live { live self.new ≡ removed R.Key.Key.order R.Record.under key.now (live self.old) }
        ensures slots { self.new.slots.now ≡ remove_leaves R.Key.Key.order R.Record.under key.now self.old.slots.now (live self.old) }
        ensures rising { Rising R.Key.Key.order R.Record.under (live self.old) → Rising R.Key.Key.order R.Record.under (live self.new) }
        ensures lender { self.new.slots.ghost_name ≡ self.old.slots.ghost_name }
    {
        let len = self.len;
        let (item, left) = remove(self.slots, len, key);
        self.len = left;
        item
    }
}
