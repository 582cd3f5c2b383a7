//! A report out of a row of words.

ghost use Rattle.std.specs.Prelude.{◌≡◌, ◌+◌, ◌%◌, ◌^◌, ◌<◌, ◌≤◌, true, length, IfOk, IfErr, Some, None, slice_index};
ghost use Rattle.report.specs.Layout.{number};
ghost use Rattle.report.specs.Reports.{whole, means, in_range};
ghost use Rattle.report.specs.Refusals.{read_told};
ghost use Rattle.report.specs.Reading.{nodes_in, position_in, mac_in, uuid_in, masks_in, padded, of, head, mask_word, end_word, test_at, asked, first_wrong, report_in, read};
ghost use Rattle.report.specs.Lossless.{Lossless};

use crate::layout::{Kind, MASKS, OWN, SIDE1, SIDE2, UUID};
use crate::mask::{is_gapless, together};
use crate::{Mac, Report, Uuid, WordFault};
use std::array;

/// The low bits of the word at a place, or 0 past the row.
fn low_bits(words: &[u32], place: usize, bits: u32) -> u64
    requires { bits ≤ 32 }
    ensures { result ≡ slice_index words.now place % 2 ^ bits }
{
    let word = words.get(place).copied().unwrap_or(0);
    u64::from(word) & ((1 << bits) - 1)
}

fn nodes_in(words: &[u32]) -> u8
    ensures { result ≡ nodes_in words.now }
{
    low_bits(words, 0, 4).min(4) as u8
}

fn position_in(words: &[u32]) -> u8
    ensures { result ≡ position_in words.now }
{
    (low_bits(words, 0, 8) >> 4) as u8
}

/// The MAC in the two words from a place on.
fn mac_in(words: &[u32], place: usize) -> Mac
    requires { place < 12 }
    ensures { result.0 ≡ mac_in place words.now }
{
    Mac(low_bits(words, place, 24) << 24 | low_bits(words, place + 1, 24))
}

fn uuid_in(words: &[u32]) -> Uuid
    ensures { whole result ≡ uuid_in words.now }
{
    let middle = low_bits(words, UUID + 2, 28);
    Uuid {
        high: low_bits(words, UUID, 16) << 48 | low_bits(words, UUID + 1, 28) << 20 | middle >> 8,
        low: (middle & 0xFF) << 56
            | low_bits(words, UUID + 3, 28) << 28
            | low_bits(words, UUID + 4, 28),
    }
}

/// The mask of the node at place `i` from end 1, or 0 past the consist's nodes.
fn mask_in(words: &[u32], i: usize) -> u8
    requires { i < 4 }
    ensures { result ≡ slice_index (masks_in words.now) i }
{
    if i < usize::from(nodes_in(words)) {
        low_bits(words, MASKS + i, 8) as u8
    } else {
        0
    }
}

fn masks_in(words: &[u32]) -> [u8; 4]
    ensures { result ≡ padded (masks_in words.now) }
{
    array::from_fn(|i| mask_in(words, i))
}

/// Whether a word has this kind, and a load of so many bits.
fn is_of(word: u32, kind: Kind, bits: u32) -> bool
    requires { bits ≤ 28 }
    ensures { result ≡ of (number kind) bits word }
{
    word >> 28 == kind.number() && word & 0xFFF_FFFF < 1 << bits
}

/// Whether a word gives 1 to 4 nodes, and one of them as the node's position.
fn is_head(word: u32) -> bool
    ensures { result ≡ head word }
{
    let nodes = word % 16;
    let position = word / 16 % 16;
    is_of(word, Kind::Head, 8) && nodes <= 4 && 1 <= position && position <= nodes
}

/// Whether a word gives a mask.
fn is_mask_word(word: u32) -> bool
    ensures { result ≡ mask_word word }
{
    is_of(word, Kind::Mask, 8) && word % 256 != 0
}

/// Whether a word ends the row, and the masks before it leave no gap.
fn is_end_word(words: &[u32], word: u32) -> bool
    ensures { result ≡ end_word words.now word }
{
    word == 0 && is_gapless(together(&masks_in(words)))
}

/// Whether a word before the masks is what the layout asks at its place.
fn is_right_before(words: &[u32], place: usize, word: u32) -> bool
    requires { place < 12 }
    ensures { result ≡ test_at words.now place word }
{
    match place {
        0 => is_head(word),
        1 | 3 | 4 | 5 | 6 => is_of(word, Kind::Mac, 24),
        2 => is_of(word, Kind::Mac, 24) && mac_in(words, OWN).is_valid(),
        7 => is_of(word, Kind::Uuid, 16),
        8 | 9 | 10 => is_of(word, Kind::Uuid, 28),
        _ => is_of(word, Kind::Uuid, 28) && uuid_in(words).is_valid(),
    }
}

/// Whether the word at a place is what the layout asks there.
fn is_right(words: &[u32], place: usize) -> bool
    requires { place < length words.now }
    ensures { result ≡ test_at words.now place (slice_index words.now place) }
{
    let word = words[place];
    let end = MASKS + usize::from(nodes_in(words));
    if place < MASKS {
        is_right_before(words, place, word)
    } else if place < end {
        is_mask_word(word)
    } else {
        place == end && is_end_word(words, word)
    }
}

/// The first word that is missing, wrong or behind the last.
fn first_wrong(words: &[u32]) -> Option<WordFault>
    ensures fault { result ≡ first_wrong 0 (asked words.now) words.now }
    ensures lossless { Lossless }
{
    let count = MASKS + usize::from(nodes_in(words)) + 1;
    for place in 0..count {
        if place >= words.len() {
            return Some(WordFault::Missing(place));
        }
        if !is_right(words, place) {
            return Some(WordFault::Wrong(place));
        }
    }
    if words.len() > count {
        Some(WordFault::Extra(count))
    } else {
        None
    }
}

/// The values of a row in which no word is wrong.
fn report_in(words: &[u32]) -> Report
    requires { first_wrong 0 (asked words.now) words.now ≡ None }
    ensures value { means result ≡ report_in words.now }
    ensures ranges { in_range result ≡ true }
{
    Report {
        mac: mac_in(words, OWN),
        side1: mac_in(words, SIDE1),
        side2: mac_in(words, SIDE2),
        uuid: uuid_in(words),
        position: position_in(words),
        nodes: nodes_in(words),
        masks: masks_in(words),
    }
}

impl Report {
    /// The report in a row of words, or the place of the first wrong word.
    pub fn read(words: &[u32]) -> Result<Report, WordFault>
        ensures answer { read_told result ≡ read words.now }
        ensures fault { IfErr result (λ f. first_wrong 0 (asked words.now) words.now ≡ Some f) }
        ensures ranges { IfOk result (λ report. in_range report ≡ true) }
        ensures lossless { Lossless }
    {
        match first_wrong(words) {
            Some(fault) => Err(fault),
            None => Ok(report_in(words)),
        }
    }
}
