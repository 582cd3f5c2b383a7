//! Numbers as a scenario writes them.

ghost use Rattle.std.specs.Prelude.{◌≡◌, ◌+◌, ◌*◌, ◌%◌, ◌<◌, ◌≤◌, ◌==◌, ◌++◌, length, slice_index, All, OnOk, IfOk};
ghost use Rattle.std.specs.Option.{SomeIff};
ghost use Rattle.std.specs.Result.{OkIff};
ghost use Rattle.std.specs.Str.Parse.{IsNumeral, digits_value};
ghost use Rattle.std.specs.Char.{digit_value};
ghost use Rattle.scenario.specs.Numbers.{radix, top, AreHexDigits, pairs, bytes_of, parts_of, IsPart, AreFour, address_of};

use crate::complaint::{Complaint, NoStatement};
use std::fmt;
use std::num::IntErrorKind;

/// How a number is written.
#[derive(Clone, Copy, PartialEq, Eq, Debug)]
pub enum Base {
    Decimal,
    Hex,
}

impl fmt::Display for Base {
    fn fmt<W: fmt::Write>(&self, f: &mut fmt::Formatter<W>) -> fmt::Result {
        match self {
            Base::Decimal => write!(f, "a decimal number"),
            Base::Hex => write!(f, "a number in hex"),
        }
    }
}

/// A number, and how it is written.
#[derive(Clone, Copy, Debug)]
pub struct Written {
    pub number: u128,
    pub base: Base,
}

impl fmt::Display for Written {
    fn fmt<W: fmt::Write>(&self, f: &mut fmt::Formatter<W>) -> fmt::Result {
        let number = self.number;
        match self.base {
            Base::Decimal => write!(f, "{number}"),
            Base::Hex => write!(f, "{number:x}"),
        }
    }
}

fn begins_with_plus(bytes: &[u8]) -> bool
    ensures { result ≡ (slice_index bytes.now 0 == 43) }
{
    bytes.first() == Some(&b'+')
}

/// The number that a token writes in digits of a base and nothing else, up to the largest that may stand there.
fn number(token: &str, base: Base, most: u128) -> Result<u128, Complaint<'_>>
    requires { most ≤ top base }
    ensures { OkIff result (IsNumeral (radix base) token.now × (digits_value (radix base) token.now ≤ most)) (digits_value (radix base) token.now) }
{
    // A plus, which `from_str_radix` takes, is no digit.
    if begins_with_plus(token.as_bytes()) {
        return Err(Complaint::NotANumber(token, base));
    }
    let largest = Written { number: most, base };
    // A number in hex has up to 128 bits, a decimal one 64: a digit past them is told before a character that is none.
    let number = match base {
        Base::Decimal => u64::from_str_radix(token, 10).map(u128::from),
        Base::Hex => u128::from_str_radix(token, 16),
    };
    match number {
        Ok(number) if number <= most => Ok(number),
        Ok(_) => Err(Complaint::TooLarge(token, largest)),
        Err(error) if *error.kind() == IntErrorKind::PosOverflow => {
            Err(Complaint::TooLarge(token, largest))
        }
        Err(_) => Err(Complaint::NotANumber(token, base)),
    }
}

/// The number that a token writes in hex digits and nothing else, up to the largest that may stand there.
pub fn hex(token: &str, most: u128) -> Result<u128, Complaint<'_>>
    ensures { OkIff result (IsNumeral 16 token.now × (digits_value 16 token.now ≤ most)) (digits_value 16 token.now) }
{
    number(token, Base::Hex, most)
}

/// The number that a token writes in decimal digits and nothing else, up to the largest that may stand there.
pub fn decimal(token: &str, most: u64) -> Result<u64, Complaint<'_>>
    ensures { OkIff result (IsNumeral 10 token.now × (digits_value 10 token.now ≤ most)) (digits_value 10 token.now) }
{
    let number = number(token, Base::Decimal, u128::from(most))?;
    Ok(number as u64)
}

/// A decimal number of 8 bits, also a part of an address.
// Cast, as each reader casts what its limit lets through: std's `TryFrom` between numbers ends at 64 bits, and its fault
// could never come.
pub fn small(token: &str) -> Result<u8, Complaint<'_>>
    ensures { OkIff result (IsPart token.now) (digits_value 10 token.now) }
{
    let number = decimal(token, 255)?;
    Ok(number as u8)
}

/// The byte that two hex digits write.
fn byte(high: u8, low: u8) -> Option<u8>
    ensures { SomeIff result ((digit_value high < 16) × (digit_value low < 16)) (digit_value high * 16 + digit_value low) }
{
    let high = char::from(high).to_digit(16)?;
    let low = char::from(low).to_digit(16)?;
    Some((high * 16 + low) as u8)
}

/// Adds the bytes that a token writes, two hex digits each.
pub fn push_bytes<'a>(token: &'a str, bytes: &mut Vec<u8>) -> Result<(), NoStatement<'a>>
    ensures bytes { OnOk result (bytes.new.items ≡ bytes.old.items ++ bytes_of token.now) }
    ensures even { OnOk result (length token.now % 2 ≡ 0) }
    ensures digits { OnOk result (All AreHexDigits (pairs token.now)) }
{
    let (pairs, odd) = token.as_bytes().as_chunks::<2>();
    if !odd.is_empty() {
        return Err(Complaint::OddDigits(token).into());
    }
    for pair in pairs {
        let [high, low] = *pair;
        let byte = byte(high, low).ok_or(Complaint::NotANumber(token, Base::Hex))?;
        bytes.push(byte)?;
    }
    Ok(())
}

/// The address that four decimal numbers with dots between them write.
// Not by `Ipv4Addr`, whose reading refuses the leading zeros that a scenario may have.
pub fn dotted(token: &str) -> Result<u32, Complaint<'_>>
    ensures { IfOk result (λ address. AreFour (parts_of token.now) × (address ≡ address_of (parts_of token.now))) }
{
    let mut parts = token.split('.');
    let four = (
        parts.next(),
        parts.next(),
        parts.next(),
        parts.next(),
        parts.next(),
    );
    let (Some(a), Some(b), Some(c), Some(d), None) = four else {
        return Err(Complaint::NotAnAddress(token));
    };
    match (small(a), small(b), small(c), small(d)) {
        (Ok(a), Ok(b), Ok(c), Ok(d)) => Ok(u32::from_be_bytes([a, b, c, d])),
        _ => Err(Complaint::NotAnAddress(token)),
    }
}
