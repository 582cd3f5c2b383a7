//! Kinds of record.

ghost use Rattle.std.specs.Prelude.{◌≡◌};

use crate::key::Key;

/// A kind of record names its kind of key, and says which key a record stands under.
pub trait Record {
    type Key: Key + Copy;

    ghost under: { Self → Self.Key };

    fn key(&self) -> Self::Key
        ensures { result ≡ under self.now };
}
