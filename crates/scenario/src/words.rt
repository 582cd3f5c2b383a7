//! The words of a line, read one after the other.

ghost use Rattle.std.specs.Prelude.{◌≤◌, IfOk};

use crate::complaint::{Complaint, NoStatement};
use crate::number::{decimal, hex, push_bytes, small};
use report::{Mac, Uuid};
use std::alloc::Global;
use std::iter::Peekable;
use std::str::SplitWhitespace;

/// The words that are still to be read.
#[derive(Drop)]
pub(crate) struct Words<'a> {
    pub(crate) heap: Global,
    pub(crate) tokens: Peekable<SplitWhitespace<'a>>,
}

fn word(token: &str) -> Result<u32, Complaint<'_>> {
    let number = hex(token, u128::from(u32::MAX))?;
    Ok(number as u32)
}

/// Any number of 64 bits: whether it is a MAC is a rule of the train.
pub(crate) fn mac(token: &str) -> Result<Mac, Complaint<'_>> {
    let number = hex(token, u128::from(u64::MAX))?;
    Ok(Mac(number as u64))
}

impl<'a> Words<'a> {
    pub(crate) fn of(heap: Global, line: &'a str) -> Words<'a> {
        let tokens = line.split_whitespace().peekable();
        Words { heap, tokens }
    }

    pub(crate) fn next(&mut self) -> Option<&'a str> {
        self.tokens.next()
    }

    /// Whether this word stands next, which is then read.
    pub(crate) fn goes_on_with(&mut self, word: &str) -> bool {
        self.tokens.next_if(|token| *token == word).is_some()
    }

    /// The next word, or what is missing.
    pub(crate) fn expect(&mut self, what: &'static str) -> Result<&'a str, Complaint<'a>> {
        self.tokens.next().ok_or(Complaint::Missing(what))
    }

    /// Whether all words have been read.
    pub(crate) fn end(&mut self) -> Result<(), Complaint<'a>> {
        match self.tokens.next() {
            None => Ok(()),
            Some(extra) => Err(Complaint::Extra(extra)),
        }
    }

    pub(crate) fn mac(&mut self) -> Result<Mac, Complaint<'a>> {
        mac(self.expect("a MAC")?)
    }

    pub(crate) fn uuid(&mut self) -> Result<Uuid, Complaint<'a>> {
        let number = hex(self.expect("a UUID")?, u128::MAX)?;
        Ok(Uuid::from(number))
    }

    pub(crate) fn small(&mut self, what: &'static str) -> Result<u8, Complaint<'a>> {
        small(self.expect(what)?)
    }

    pub(crate) fn decimal(&mut self, what: &'static str, most: u64) -> Result<u64, Complaint<'a>>
        ensures { IfOk result (λ number. number ≤ most) }
    {
        decimal(self.expect(what)?, most)
    }

    /// Words of 32 bits.
    // Beside `macs`: one function of both, lent the reader of a word, gets no proof, neither by a chain nor by a loop.
    pub(crate) fn words(&mut self) -> Result<Vec<u32>, NoStatement<'a>> {
        self.tokens
            .by_ref()
            .map(|token| -> Result<u32, NoStatement<'_>> { Ok(word(token)?) })
            .try_collect(self.heap)
    }

    pub(crate) fn macs(&mut self) -> Result<Vec<Mac>, NoStatement<'a>> {
        self.tokens
            .by_ref()
            .map(|token| -> Result<Mac, NoStatement<'_>> { Ok(mac(token)?) })
            .try_collect(self.heap)
    }

    pub(crate) fn bytes(&mut self) -> Result<Vec<u8>, NoStatement<'a>> {
        let mut bytes = Vec::new(self.heap);
        for token in &mut self.tokens {
            push_bytes(token, &mut bytes)?;
        }
        Ok(bytes)
    }
}
