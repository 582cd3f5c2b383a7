//! Why a statement about nodes is not played.

use report::Mac;
use std::alloc::AllocError;
use std::io;
use thiserror::Error;

/// What the statement lacks, or what failed in the program.
#[derive(Debug, Drop, Error)]
pub enum Unplayed {
    #[error("no node has started")]
    NoNode,
    #[error("no node has the MAC {0}")]
    NoNodeOf(Mac),
    #[error("a node has the MAC {0} already")]
    Twice(Mac),
    #[error("16 nodes have started, and there is no place for more")]
    Full,
    #[error("no hold is in hand")]
    NoHold,
    #[error(transparent)]
    OutOfMemory(#[from(alloc)] AllocError),
    #[error(transparent)]
    Io(#[from] io::Error),
}
