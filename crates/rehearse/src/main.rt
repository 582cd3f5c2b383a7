//! Plays a scenario from standard input, one statement a line, and prints every answer.

#![tactic(auto)]

mod at_hand;
mod held;
mod inaugurate;

use at_hand::AtHand;
use backbone::memory;
use std::io;
use std::io::{BufRead, BufReader};

fn main(rt: HostRuntime) -> anyhow::Result<()> {
    let heap = rt.alloc();
    let mut memory = memory(heap).map_err(io::Error::from)?;
    let mut at_hand = AtHand::new(heap, memory.as_mut_slice());
    let played = play_lines(&rt, &mut at_hand);
    at_hand.end();
    played
}

fn play_lines(rt: &HostRuntime, at_hand: &mut AtHand<'_>) -> anyhow::Result<()> {
    let heap = rt.alloc();
    for (number, line) in (1..u64::MAX).zip(BufReader::new(heap, rt.stdin())?.lines(heap)) {
        match line {
            Ok(text) => at_hand.play_line(rt, number, text.as_str())?,
            Err(error) if error.kind() == io::ErrorKind::InvalidData => {
                println!(rt; "line {number}: not text in UTF-8")?;
            }
            Err(error) => return Err(error.into()),
        }
    }
    Ok(())
}
