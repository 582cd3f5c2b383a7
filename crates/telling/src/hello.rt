//! What the program says of a HELLO frame.

use hello_read::{Fields, Hello, HelloFrame, Refusal};
use std::{fmt, io};

/// Bytes, as two digits each.
#[derive(Clone, Copy)]
struct Digits<'a>(&'a [u8]);

impl fmt::Display for Digits<'_> {
    fn fmt<W: fmt::Write>(&self, f: &mut fmt::Formatter<W>) -> fmt::Result {
        for byte in self.0 {
            write!(f, "{byte:02x}")?;
        }
        Ok(())
    }
}

/// The fields of a HELLO frame, or why it is refused.
pub fn tell_hello(rt: &HostRuntime, frame: &[u8]) -> io::Result<()> {
    match HelloFrame::read(frame) {
        Ok(
            HelloFrame {
                hello: Hello {
                    fields,
                    vendor,
                    uuid,
                },
                vendor_at,
                uuid_at,
                ..
            },
        ) => {
            tell_fields(rt, &fields)?;
            println!(rt; "  vendor at {vendor_at}: {}", Digits(vendor))?;
            println!(rt; "  uuid at {uuid_at}: {}", Digits(uuid))
        }
        Err(fault) => println!(rt; "hello: refused {}", Refusal::from(fault)),
    }
}

fn tell_fields(rt: &HostRuntime, fields: &Fields) -> io::Result<()> {
    let Fields {
        source,
        remote,
        life_sign,
        counter,
        checksum,
        statuses: [a, b, c, d],
        timeout,
        port,
        line,
        direction,
        inhibition,
    } = *fields;
    let line = char::from(line);
    println!(rt;
        "hello: source {source:012x}, remote {remote:012x}, port {port}, line {line}, direction {direction}"
    )?;
    println!(rt; "  life sign {life_sign}, counter {counter:08x}, checksum {checksum:04x}")?;
    let timeout = if timeout == 1 { "slow" } else { "fast" };
    println!(rt; "  statuses {a} {b} {c} {d}, timeout {timeout}, inhibition {inhibition}")
}
