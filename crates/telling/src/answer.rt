//! What the program says of a report and of a counter.

use counter::crc32;
use report::{Mac, Report};
use std::io;

/// The most words of a report.
const WORDS: usize = 17;

/// The report in a row of words and its words written again, or why the row is refused.
pub fn tell_report(rt: &HostRuntime, words: &[u32]) -> io::Result<()> {
    match Report::read(words) {
        Ok(report) => {
            tell_node(rt, &report)?;
            tell_masks(rt, &report)?;
            print!(rt; "  words:")?;
            tell_words(rt, &report)
        }
        Err(fault) => println!(rt; "report: refused {fault}"),
    }
}

fn tell_node(rt: &HostRuntime, report: &Report) -> io::Result<()> {
    let Report {
        mac,
        side1,
        side2,
        uuid,
        position,
        nodes,
        ..
    } = *report;
    println!(rt; "report: node {mac}, position {position} of {nodes} in consist {uuid}")?;
    tell_side(rt, 1, side1)?;
    tell_side(rt, 2, side2)
}

fn tell_side(rt: &HostRuntime, side: u8, neighbour: Mac) -> io::Result<()> {
    match neighbour {
        Mac(0) => println!(rt; "  side {side}: no neighbour"),
        mac => println!(rt; "  side {side}: {mac}"),
    }
}

/// The networks of each node of the consist, from end 1.
fn tell_masks(rt: &HostRuntime, report: &Report) -> io::Result<()> {
    let masks = report.masks.iter().take(usize::from(report.nodes));
    for (position, mask) in (1..=4u8).zip(masks) {
        print!(rt; "  node {position}: networks")?;
        for network in (1..=8u8).filter(|network| *mask >> (*network - 1) & 1 == 1) {
            print!(rt; " {network}")?;
        }
        println!(rt; "")?;
    }
    Ok(())
}

/// The words of a report on one line.
pub fn tell_words(rt: &HostRuntime, report: &Report) -> io::Result<()> {
    // The node's libraries fill a buffer that they are lent, here and wherever reports are asked, since they have no heap.
    let mut words = [0u32; WORDS];
    match report.write(&mut words) {
        Ok(count) => {
            for word in words.iter().take(count) {
                print!(rt; " {word:08x}")?;
            }
            println!(rt; "")
        }
        Err(fault) => println!(rt; " refused {fault}"),
    }
}

/// The counter of a row of bytes.
pub fn tell_counter(rt: &HostRuntime, bytes: &[u8]) -> io::Result<()> {
    let crc = crc32(bytes);
    println!(rt; "counter: {crc:08x}")
}
