//! Where a row of words holds what; the head is word 0, and the end word stands behind the masks.

ghost use Rattle.std.specs.Prelude.{◌≡◌, ◌<◌};
ghost use Rattle.report.specs.Layout.{number};

/// What a word carries, by the number in its top 4 bits. The end word is 0.
#[derive(Clone, Copy)]
pub(crate) enum Kind {
    Head = 1,
    Mac = 2,
    Uuid = 3,
    Mask = 4,
}

impl Kind {
    pub(crate) fn number(self) -> u32
        ensures kind { result ≡ number self }
        ensures four_bits { result < 16 }
    {
        self as u32
    }
}

pub(crate) const OWN: usize = 1;

pub(crate) const SIDE1: usize = 3;

pub(crate) const SIDE2: usize = 5;

pub(crate) const UUID: usize = 7;

pub(crate) const MASKS: usize = 12;
