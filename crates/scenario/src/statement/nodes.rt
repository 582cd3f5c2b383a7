//! What is said to nodes and about them.

use crate::complaint::{Complaint, NoStatement};
use crate::number::decimal;
use crate::words::Words;
use directory::limits::{BYTES, NODES};
use report::Mac;

/// A statement about nodes.
#[derive(Drop)]
pub enum NodeStatement {
    /// A node of this MAC starts, with room for so many reports.
    Start(Mac, usize),
    /// The node of this MAC is spoken to from now on.
    At(Mac),
    Take(Vec<u32>),
    Silence(Mac),
    Inaugurate,
    Hold,
    /// The oldest hold in hand is returned.
    Return,
    /// The directory is written to a buffer of so many bytes.
    Directory(usize),
    Status(u8),
    /// Whether the nodes of these MACs agree; all nodes where none is named.
    Agree(Vec<Mac>),
    /// The calls made on two nodes are played once more.
    Rehearse(Mac, Mac),
}

impl NodeStatement {
    /// The statement that begins with this word.
    pub(crate) fn begun<'a>(
        first: &'a str,
        words: &mut Words<'a>,
    ) -> Result<NodeStatement, NoStatement<'a>> {
        Ok(match first {
            "node" => NodeStatement::Start(words.mac()?, size(words, NODES)?),
            "at" => NodeStatement::At(words.mac()?),
            "take" => NodeStatement::Take(words.words()?),
            "silence" => NodeStatement::Silence(words.mac()?),
            "hold" => NodeStatement::Hold,
            "return" => NodeStatement::Return,
            "directory" => NodeStatement::Directory(size(words, BYTES)?),
            "status" => NodeStatement::Status(words.small("a node number")?),
            "agree" => NodeStatement::Agree(words.macs()?),
            "rehearse" => NodeStatement::Rehearse(words.mac()?, words.mac()?),
            _ => return Err(Complaint::Unknown(first).into()),
        })
    }
}

/// The number that stands next, or the one that is meant where none does.
fn size<'a>(words: &mut Words<'a>, meant: usize) -> Result<usize, Complaint<'a>> {
    match words.next() {
        Some(token) => Ok(decimal(token, 65535)? as usize),
        None => Ok(meant),
    }
}
