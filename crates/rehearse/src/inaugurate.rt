//! What the program says of the rows at hand and of their inauguration.

use crate::held::Held;
use composition::{Composition, Consist};
use directory::Directory;
use report::{Mac, Report};
use std::io;
use telling::tell_rows;

/// Puts the report in a row of words among the rows at hand.
pub fn hold_report(rt: &HostRuntime, held: &mut Held, words: &[u32]) -> io::Result<()> {
    match Report::read(words) {
        Ok(report) => match held.store(report) {
            Ok(count) => println!(rt; "held: {count}"),
            Err(full) => println!(rt; "held: refused {full}"),
        },
        Err(fault) => println!(rt; "held: refused {fault}"),
    }
}

/// Makes the true reports of a described train the rows at hand.
pub fn hold_train(rt: &HostRuntime, held: &mut Held, consists: &[Consist]) -> io::Result<()> {
    match Held::of_train(&Composition { consists }) {
        Ok(reports) => {
            *held = reports;
            let count = held.reports().len();
            println!(rt; "held: {count}")
        }
        Err(fault) => println!(rt; "held: no line: {fault}"),
    }
}

/// Inaugurates the rows at hand; an accepted directory is at hand from then on.
pub fn tell_inauguration(
    rt: &HostRuntime,
    held: &Held,
    own: Mac,
    directory: &mut Directory,
) -> io::Result<()> {
    match inauguration::inaugurate(own, held.reports()) {
        Ok(accepted) => {
            *directory = accepted;
            let counter = directory.counter();
            println!(rt; "inaugurate: counter {counter:08x}")?;
            tell_rows(rt, directory)
        }
        Err(refused) => println!(rt; "inaugurate: refused {refused}"),
    }
}
