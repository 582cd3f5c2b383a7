//! Whether nodes have the same directory and the same counter.

use backbone::{Nodes, Started, Unplayed};
use directory::Row;
use report::Mac;
use std::alloc::{AllocError, Global};
use std::io;

/// What is compared of a node.
#[derive(Drop)]
struct Compared {
    mac: Mac,
    counter: Option<u32>,
    rows: Vec<Row>,
}

impl Compared {
    fn of(heap: Global, started: &Started<'_>) -> Result<Compared, AllocError> {
        Ok(Compared {
            mac: started.mac,
            counter: started.counter,
            rows: started.rows(heap)?,
        })
    }

    /// A row of the node, by its number from 1.
    fn tell_row(&self, rt: &HostRuntime, place: usize) -> io::Result<()> {
        let mac = self.mac;
        match self.rows.get(place) {
            Some(row) => println!(rt; "  {mac}: {row}"),
            None => println!(rt; "  {mac}: no row"),
        }
    }

    /// Whether two nodes agree; tells the first row in which they differ.
    fn agrees(&self, rt: &HostRuntime, other: &Compared) -> io::Result<bool> {
        let (mac, other_mac) = (self.mac, other.mac);
        let most = self.rows.len().max(other.rows.len());
        if let Some(place) = (0..most).find(|&i| self.rows.get(i) != other.rows.get(i)) {
            let number = place.saturating_add(1);
            println!(rt; "agree: no, {mac} and {other_mac} differ in row {number}")?;
            self.tell_row(rt, place)?;
            other.tell_row(rt, place)?;
            return Ok(false);
        }
        if self.counter != other.counter {
            println!(rt; "agree: no, {mac} and {other_mac} differ in the counter")?;
            return Ok(false);
        }
        Ok(true)
    }
}

/// The MACs that are named, each of a node that has started; those of all nodes where none is named.
fn named(heap: Global, nodes: &Nodes<'_>, macs: &[Mac]) -> Result<Vec<Mac>, Unplayed> {
    let mut named = Vec::new(heap);
    if macs.is_empty() {
        for started in nodes.started() {
            named.push(started.mac)?;
        }
    }
    for mac in macs {
        named.push(nodes.get(*mac)?.mac)?;
    }
    Ok(named)
}

/// Whether the nodes of these MACs agree, or all where none is named: the first is compared with each other.
pub fn tell_agreement(rt: &HostRuntime, nodes: &Nodes<'_>, macs: &[Mac]) -> Result<(), Unplayed> {
    let heap = rt.alloc();
    let named = named(heap, nodes, macs)?;
    let (first, others) = named.split_first().ok_or(Unplayed::NoNode)?;
    let first = Compared::of(heap, nodes.get(*first)?)?;
    for mac in others {
        // One at a time, since a node can be named as often as wanted.
        let other = Compared::of(heap, nodes.get(*mac)?)?;
        if !first.agrees(rt, &other)? {
            return Ok(());
        }
    }
    let count = named.len();
    let rows = first.rows.len();
    match first.counter {
        Some(counter) => {
            println!(rt; "agree: yes, {count} nodes, rows {rows}, counter {counter:08x}")?;
        }
        None => println!(rt; "agree: yes, {count} nodes, no directory")?,
    }
    Ok(())
}
