//! Complaints of lines that are no statement.

use crate::number::{Base, Written};
use std::alloc::AllocError;
use thiserror::Error;

/// Why a line is no statement, with the word that is at fault.
#[derive(Clone, Copy, Debug, Drop, Error)]
pub enum Complaint<'a> {
    #[error("no statement begins with '{0}'")]
    Unknown(&'a str),
    #[error("'{0}' is not {1}")]
    NotANumber(&'a str, Base),
    #[error("'{0}' has an odd number of digits")]
    OddDigits(&'a str),
    /// The word, and the largest number that may stand there.
    #[error("'{0}' is above {1}")]
    TooLarge(&'a str, Written),
    #[error("'{0}' is neither forward nor turned")]
    NotAWay(&'a str),
    #[error("'{0}' is not MASK:MAC or MASK:asleep")]
    NotANode(&'a str),
    /// The first node past the fourth.
    #[error("'{0}' is a fifth node, and a consist has at most 4")]
    FifthNode(&'a str),
    #[error("'{0}' is none of train, consist and home")]
    NotAPlan(&'a str),
    #[error("'{0}' is neither host nor node")]
    NotADevice(&'a str),
    #[error("'{0}' is not an address A.B.C.D")]
    NotAnAddress(&'a str),
    /// What is missing at the end of the line.
    #[error("{0} is missing")]
    Missing(&'static str),
    /// A word behind the end of the statement.
    #[error("'{0}' stands behind the end of the statement")]
    Extra(&'a str),
}

/// Why a line gives no statement.
#[derive(Clone, Copy, Debug, Drop, Error)]
pub enum NoStatement<'a> {
    #[error(transparent)]
    Complaint(#[from] Complaint<'a>),
    #[error(transparent)]
    OutOfMemory(#[from(alloc)] AllocError),
}
