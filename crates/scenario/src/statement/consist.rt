//! One more consist of the described train: `consist`.

use crate::complaint::Complaint;
use crate::number::hex;
use crate::words::{Words, mac};
use composition::{Consist, Node};
use directory::Way;

pub fn consist<'a>(words: &mut Words<'a>) -> Result<Consist, Complaint<'a>> {
    let uuid = words.uuid()?;
    let way = match words.expect("forward or turned")? {
        "forward" => Way::Forward,
        "turned" => Way::Turned,
        other => return Err(Complaint::NotAWay(other)),
    };
    let mut nodes = [Node { mask: 0, mac: None }; 4];
    let mut count = 0;
    for (place, token) in (0u8..5).zip(words.tokens.by_ref()) {
        let Some(free) = nodes.get_mut(usize::from(place)) else {
            return Err(Complaint::FifthNode(token));
        };
        *free = node(token)?;
        count = place + 1;
    }
    Ok(Consist {
        uuid,
        way,
        count,
        nodes,
    })
}

/// `MASK:MAC` of a node that is awake, `MASK:asleep` of another.
fn node(token: &str) -> Result<Node, Complaint<'_>> {
    let Some((mask, told)) = token.split_once(':') else {
        return Err(Complaint::NotANode(token));
    };
    let mask = hex(mask, 0xFF)? as u8;
    let mac = match told {
        "asleep" => None,
        told => Some(mac(told)?),
    };
    Ok(Node { mask, mac })
}
