//! A table of records over a slice that is lent.

ghost use Rattle.std.specs.Prelude.{◌≡◌, take};
ghost use Rattle.keyed.specs.Table.{live};

/// The first `len` of the slots hold the records; the others are free. The slots are memory of fixed size that is lent, so
/// the count stands beside them, and each method hands both to a function.
#[derive(Drop)]
pub struct Table<'a, R> {
    pub(crate) slots: &'a mut [R],
    pub(crate) len: usize,
}

impl<'a, R> Table<'a, R> {
    pub fn new(slots: &'a mut [R], len: usize) -> Table<'a, R>
        ensures live { live result ≡ take len slots.old }
        ensures slots { result.slots.now ≡ slots.old }
        ensures lender { result.slots.ghost_name ≡ slots.entry.ghost_name }
    {
        Table { slots, len }
    }
}
