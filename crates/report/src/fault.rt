//! Why words are refused, and why a report is not written.

ghost use Rattle.std.specs.Prelude.{◌≡◌, [], ◌∷◌};
ghost use Rattle.report.specs.Refusals.{word_refusal};

/// Why a row of words is no report, with the place of the first wrong word: refusal 2.
#[derive(Clone, Copy, PartialEq, Eq, Debug)]
pub enum WordFault {
    /// The row ends here, before its report does.
    Missing(usize),
    /// The word is not of the layout.
    Wrong(usize),
    /// The first word behind the end word.
    Extra(usize),
}

/// Why a report is not written.
#[derive(Clone, Copy, PartialEq, Eq, Debug)]
pub enum WriteFault {
    /// A value is outside its range: refusal 17.
    Field,
    /// The words do not fit the buffer: refusal 1.
    Short,
}

impl WordFault {
    /// The place of the first wrong word.
    pub fn place(self) -> usize
        ensures { word_refusal self ≡ (2, result ∷ []) }
    {
        match self {
            WordFault::Missing(place) | WordFault::Wrong(place) | WordFault::Extra(place) => place,
        }
    }
}
