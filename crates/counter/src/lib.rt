//! The CRC-32 of IEEE 802.3, of bytes that may come in parts.

#![tactic(auto)]

mod table;

ghost use Rattle.std.specs.Prelude.{◌≡◌, ◌-◌};
ghost use Rattle.counter.specs.Crc.{all_ones, register_after, crc};
ghost use Rattle.counter.specs.Parts.{PartsJoin, DetectsOneByte};

use table::entry;

/// A CRC that is still being counted: start it, take each part in turn, and finish it.
#[derive(Clone, Copy)]
pub struct Counter {
    register: u32,
}

impl Counter {
    /// A counter that has taken no byte yet.
    pub fn start() -> Self
        ensures { result.register ≡ all_ones }
    {
        Counter { register: u32::MAX }
    }

    /// Takes the next bytes: it does not matter how they are parted.
    pub fn take(&mut self, bytes: &[u8])
        ensures after { self.new.register ≡ register_after self.old.register bytes.now }
        ensures joins { PartsJoin }
        ensures detects { DetectsOneByte }
    {
        self.register = advance(self.register, bytes);
    }

    /// The CRC of all bytes taken since the start.
    pub fn finish(self) -> u32
        ensures { result ≡ all_ones - self.register }
    {
        !self.register
    }
}

/// A byte at a step: its bits and the register's lowest eight leave together, and the table has what they add to the rest.
fn advance(mut register: u32, bytes: &[u8]) -> u32
    ensures value { result ≡ register_after register bytes.now }
    ensures joins { PartsJoin }
    ensures detects { DetectsOneByte }
{
    for byte in bytes {
        let low = (register ^ u32::from(*byte)) & 0xFF;
        register = entry(low as u8) ^ (register >> 8);
    }
    register
}

/// The CRC of `bytes`: a change of any one byte changes it.
pub fn crc32(bytes: &[u8]) -> u32
    ensures value { result ≡ crc bytes.now }
    ensures detects { DetectsOneByte }
{
    let mut counter = Counter::start();
    counter.take(bytes);
    counter.finish()
}

#[cfg(test)]
mod tests {
    use super::*;

    #[test]
    fn check_value(rt: HostRuntime) {
        assert_eq!(rt; crc32(b"123456789"), 0xCBF4_3926);
    }

    #[test]
    fn of_nothing(rt: HostRuntime) {
        assert_eq!(rt; crc32(&[]), 0);
    }

    #[test]
    fn in_parts(rt: HostRuntime) {
        let mut parts = Counter::start();
        parts.take(b"1234");
        parts.take(b"");
        parts.take(b"56789");
        assert_eq!(rt; parts.finish(), crc32(b"123456789"));
    }
}
