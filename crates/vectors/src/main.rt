//! Runs published CRC-32 vectors, each row at once and in two parts, and prints what came of each.

#![tactic(auto)]

mod published;

ghost use Rattle.std.specs.Prelude.{◌≡◌};
ghost use Rattle.counter.specs.Crc.{crc};

use counter::{Counter, crc32};
use published::VECTORS;

/// The CRC of a row that comes in two parts.
fn in_two_parts(row: &[u8]) -> u32
    ensures { result ≡ crc row.now }
{
    let (first, second) = row.split_at(row.len() / 3);
    let mut counter = Counter::start();
    counter.take(first);
    counter.take(second);
    counter.finish()
}

fn main(rt: HostRuntime) -> anyhow::Result<()> {
    for vector in &VECTORS {
        let name = vector.name;
        let crc = vector.crc;
        let row = vector.part.repeat(rt.alloc(), vector.times)?;
        let whole = crc32(&row);
        let parts = in_two_parts(&row);
        let verdict = if whole == crc && parts == crc {
            "ok"
        } else {
            "WRONG"
        };
        println!(rt;
            "{name}: expected {crc:08X}, at once {whole:08X}, in two parts {parts:08X}: {verdict}"
        )?;
    }
    Ok(())
}
