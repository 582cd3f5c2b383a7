//! What the program says of a described train.

use crate::answer::tell_words;
use composition::{Composition, Consist};
use directory::limits::NODES;
use directory::{Directory, Row, Way};
use report::Report;
use std::io;

/// The drawing, the true reports, the rows and the counter of a described train, or the rule that it breaks.
pub fn tell_train(rt: &HostRuntime, consists: &[Consist]) -> io::Result<()> {
    let train = Composition { consists };
    match train.directory() {
        Err(fault) => println!(rt; "train: no line: {fault}"),
        Ok(directory) => {
            let rows = directory.row_count();
            let counter = directory.counter();
            println!(rt; "train: rows {rows}, counter {counter:08x}")?;
            let drawing = Drawing {
                consists,
                directory: &directory,
            };
            drawing.tell(rt)?;
            tell_reports(rt, &train)?;
            tell_rows(rt, &directory)
        }
    }
}

/// A described train and its directory.
#[derive(Clone, Copy)]
struct Drawing<'a> {
    consists: &'a [Consist],
    directory: &'a Directory,
}

impl Drawing<'_> {
    /// The consists as they are read, each between its ends 1 and 2.
    fn tell(&self, rt: &HostRuntime) -> io::Result<()> {
        print!(rt; "  drawing:")?;
        let rows = self.directory.rows();
        for consist in rows.chunk_by(|row, next| row.uuid == next.uuid) {
            let (first, last) = match consist.first().map(|row| row.way) {
                Some(Way::Turned) => (2, 1),
                _ => (1, 2),
            };
            print!(rt; " {first}[")?;
            for node in consist.chunk_by(|row, next| row.node == next.node) {
                self.tell_node(rt, node)?;
            }
            print!(rt; " ]{last}")?;
        }
        println!(rt; "")
    }

    /// A node by its rows: its number and its subnets, in brackets where it is asleep.
    fn tell_node(&self, rt: &HostRuntime, rows: &[Row]) -> io::Result<()> {
        let Some((first, others)) = rows.split_first() else {
            return Ok(());
        };
        let (number, subnet) = (first.node, first.subnet);
        let (left, right) = if self.is_awake(number) {
            ("", "")
        } else {
            ("(", ")")
        };
        print!(rt; " {left}{number}:{subnet}")?;
        for row in others {
            let subnet = row.subnet;
            print!(rt; ",{subnet}")?;
        }
        print!(rt; "{right}")
    }

    /// Whether the node with this number has a MAC in the description.
    fn is_awake(&self, number: u8) -> bool {
        let Some((uuid, position)) = self.directory.node(number) else {
            return false;
        };
        let place = usize::from(position).saturating_sub(1);
        match self.consists.iter().find(|consist| consist.uuid == uuid) {
            Some(consist) => consist
                .nodes
                .get(place)
                .is_some_and(|node| node.mac.is_some()),
            None => false,
        }
    }
}

fn tell_reports(rt: &HostRuntime, train: &Composition) -> io::Result<()> {
    let mut reports = [Report::default(); NODES];
    match train.reports(&mut reports) {
        Ok(count) => {
            for report in reports.iter().take(count) {
                print!(rt; "  report")?;
                tell_words(rt, report)?;
            }
            Ok(())
        }
        Err(short) => println!(rt; "train: refused {short}"),
    }
}

/// The rows of a directory, one a line.
pub fn tell_rows(rt: &HostRuntime, directory: &Directory) -> io::Result<()> {
    for row in directory.rows() {
        println!(rt; "  row {row}")?;
    }
    Ok(())
}
