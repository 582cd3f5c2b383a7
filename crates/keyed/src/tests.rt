//! Two kinds of key, a kind of record under each, and what a table does with them.

ghost use Rattle.std.specs.Prelude.{◌≡◌};
ghost use Rattle.keyed.specs.Orders.{numbers, pairs, whole};
ghost use Rattle.std.proofs.Common.{rules};

use crate::key::Key;
use crate::record::Record;
use crate::store::Full;
use crate::table::Table;
use std::cmp::Ordering;

#[derive(Clone, Copy)]
struct Number {
    value: u64,
}

impl Key for Number {
    ghost order = { λ a b. numbers a.value b.value };

    ghost total = { Prim.search rules };

    fn compare(&self, other: &Number) -> Ordering {
        self.value.cmp(&other.value)
    }
}

/// Two halves, compared as one number of 128 bits.
#[derive(Clone, Copy)]
struct Halves {
    high: u64,
    low: u64,
}

impl Key for Halves {
    ghost order = { λ a b. pairs (a.high, a.low) (b.high, b.low) };

    ghost total = { Prim.search rules };

    fn compare(&self, other: &Halves) -> Ordering
        ensures order { result ≡ pairs (self.now.high, self.now.low) (other.now.high, other.now.low) }
        ensures number { result ≡ numbers (whole (self.now.high, self.now.low)) (whole (other.now.high, other.now.low)) }
    {
        // Read first, so that both are known to fit 64 bits.
        let (mine, theirs) = (self.low, other.low);
        self.high.cmp(&other.high).then(mine.cmp(&theirs))
    }
}

#[derive(Clone, Copy, PartialEq, Debug)]
struct Lamp {
    number: u64,
    lit: bool,
}

impl Record for Lamp {
    type Key = Number;

    ghost under = { λ l. record { value = l.number } };

    fn key(&self) -> Number {
        Number { value: self.number }
    }
}

#[derive(Clone, Copy, PartialEq, Debug)]
struct Parcel {
    high: u64,
    low: u64,
    weight: u16,
}

impl Record for Parcel {
    type Key = Halves;

    ghost under = { λ p. record { high = p.high; low = p.low } };

    fn key(&self) -> Halves {
        Halves {
            high: self.high,
            low: self.low,
        }
    }
}

fn dark(number: u64) -> Lamp {
    Lamp { number, lit: false }
}

fn lit(number: u64) -> Lamp {
    Lamp { number, lit: true }
}

fn packed(high: u64, low: u64) -> Parcel {
    let weight = 20;
    Parcel { high, low, weight }
}

#[test]
fn a_new_key_goes_to_its_place(rt: HostRuntime) {
    let mut slots = [dark(0); 3];
    let mut table = Table::new(&mut slots, 0);
    assert_eq!(rt; table.store(dark(7)), Ok(1));
    assert_eq!(rt; table.store(dark(5)), Ok(2));
    assert_eq!(rt; table.store(dark(6)), Ok(3));
    assert_eq!(rt; table.records(), [dark(5), dark(6), dark(7)].as_slice());
}

#[test]
fn an_equal_key_replaces(rt: HostRuntime) {
    let mut slots = [dark(5), dark(7)];
    let mut table = Table::new(&mut slots, 2);
    assert_eq!(rt; table.store(lit(5)), Ok(2));
    assert_eq!(rt; table.get(0), Some(lit(5)));
    assert_eq!(rt; table.get(1), Some(dark(7)));
}

#[test]
fn a_new_key_is_refused_when_every_place_is_taken(rt: HostRuntime) {
    let mut slots = [dark(5), dark(7)];
    let mut table = Table::new(&mut slots, 2);
    assert_eq!(rt; table.store(dark(6)), Err(Full));
    assert_eq!(rt; table.records(), [dark(5), dark(7)].as_slice());
}

#[test]
fn a_removed_place_is_used_again(rt: HostRuntime) {
    let mut slots = [dark(5), dark(7)];
    let mut table = Table::new(&mut slots, 2);
    assert_eq!(rt; table.remove(&Number { value: 5 }), Some(dark(5)));
    assert_eq!(rt; table.remove(&Number { value: 5 }), None);
    assert_eq!(rt; table.len(), 1);
    assert_eq!(rt; table.store(dark(9)), Ok(2));
    assert_eq!(rt; table.records(), [dark(7), dark(9)].as_slice());
}

#[test]
fn the_high_half_decides_first(rt: HostRuntime) {
    let mut slots = [packed(2, 0); 2];
    let mut table = Table::new(&mut slots, 1);
    assert_eq!(rt; table.store(packed(1, 9)), Ok(2));
    assert_eq!(rt; table.records(), [packed(1, 9), packed(2, 0)].as_slice());
    assert_eq!(rt; table.find(&Halves { high: 2, low: 0 }), Some(packed(2, 0)));
    assert_eq!(rt; table.find(&Halves { high: 1, low: 0 }), None);
}
