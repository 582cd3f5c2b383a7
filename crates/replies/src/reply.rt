//! What the program says of a node's answers, and of places.

use any_plan::AnyPlan;
use backbone::read_rows;
use node::Answer;
use plan::{Place, Plan};
use std::io;
use std::net::Ipv4Addr;

/// The address of a place, if there is such a place and the plan serves it.
pub fn tell_place(rt: &HostRuntime, plan: &AnyPlan, place: Option<Place>) -> io::Result<()> {
    match place.and_then(|place| plan.address(place)) {
        Some(address) => {
            let address = Ipv4Addr::from(address);
            println!(rt; "place: {address}")
        }
        None => println!(rt; "place: none"),
    }
}

/// An answer: behind an indent, with the number of holds out after it, and with the buffer that a directory is in.
pub fn tell_answer(
    rt: &HostRuntime,
    indent: &str,
    answer: Answer,
    out: u64,
    buffer: &[u8],
) -> io::Result<()> {
    print!(rt; "{indent}")?;
    match answer {
        Answer::Taken(Ok(held)) => println!(rt; "take: held {held}"),
        Answer::Taken(Err(fault)) => println!(rt; "take: refused {fault}"),
        Answer::Silenced(Ok(held)) => println!(rt; "silence: held {held}"),
        Answer::Silenced(Err(unknown)) => println!(rt; "silence: refused {unknown}"),
        Answer::Inaugurated(Ok(counter)) => println!(rt; "inaugurate: counter {counter:08x}"),
        Answer::Inaugurated(Err(fault)) => println!(rt; "inaugurate: refused {fault}"),
        Answer::Granted(Ok(_)) => println!(rt; "hold: taken, {out} out"),
        Answer::Granted(Err(busy)) => println!(rt; "hold: refused {busy}"),
        Answer::Returned(true) => println!(rt; "return: yes, {out} out"),
        Answer::Returned(false) => println!(rt; "return: no, {out} out"),
        Answer::Directory(Ok(rows)) => tell_directory(rt, indent, rows, buffer),
        Answer::Directory(Err(fault)) => println!(rt; "directory: refused {fault}"),
        Answer::Status(Ok(status)) => println!(rt; "status: {status}"),
        Answer::Status(Err(refused)) => println!(rt; "status: refused {refused}"),
        Answer::Address(Ok(address)) => {
            let address = Ipv4Addr::from(address);
            println!(rt; "address: {address}")
        }
        Answer::Address(Err(refused)) => println!(rt; "address: refused {refused}"),
        Answer::Traced(Ok(device)) => println!(rt; "trace: {device}"),
        Answer::Traced(Err(refused)) => println!(rt; "trace: refused {refused}"),
    }
}

fn tell_directory(rt: &HostRuntime, indent: &str, count: usize, buffer: &[u8]) -> io::Result<()> {
    println!(rt; "directory: rows {count}")?;
    for row in &read_rows(rt.alloc(), buffer, count)? {
        println!(rt; "{indent}  {row}")?;
    }
    Ok(())
}
