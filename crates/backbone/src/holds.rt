//! The holds in hand, the oldest first.

use crate::started::{Started, place_of};
use node::{Answer, Hold, Node};
use report::Mac;
use std::alloc::{AllocError, Global};
use std::collections::VecDeque;

/// A hold, and the MAC that it bears: a hold itself does not tell it.
struct InHand {
    mac: Mac,
    hold: Hold,
}

/// It can be let go only by `end`.
pub(crate) struct Holds {
    in_hand: VecDeque<InHand>,
}

impl Holds {
    pub(crate) fn none(heap: Global) -> Holds {
        Holds {
            in_hand: VecDeque::new(heap),
        }
    }

    /// The MAC that the oldest hold bears.
    pub(crate) fn oldest(&self) -> Option<Mac> {
        self.in_hand.front().map(|in_hand| in_hand.mac)
    }

    /// A hold of the node with this MAC. Where there is no memory for it, the node has it back.
    pub(crate) fn take(&mut self, node: &mut Node<'_>, mac: Mac) -> Result<Answer, AllocError> {
        match node.hold() {
            Ok(hold) => match self.in_hand.push_back(InHand { mac, hold }) {
                Ok(()) => Ok(Answer::Granted(Ok(mac))),
                Err(refused) => {
                    let InHand { mac: _, hold } = refused.value;
                    node.give_back(hold);
                    Err(AllocError)
                }
            },
            Err(busy) => Ok(Answer::Granted(Err(busy))),
        }
    }

    /// The oldest hold goes to a node, which answers whether it was one of its own. Where there is none, it was not.
    pub(crate) fn give_back(&mut self, node: &mut Node<'_>) -> bool {
        match self.in_hand.pop_front() {
            Some(InHand { mac: _, hold }) => node.give_back(hold),
            None => false,
        }
    }

    /// Every hold goes back to the node that granted it.
    pub(crate) fn end(self, started: &mut [Started<'_>]) {
        let Holds { mut in_hand } = self;
        while let Some(InHand { mac, hold }) = in_hand.pop_front() {
            give_back(started, mac, hold);
        }
        in_hand.destroy_empty();
    }
}

/// A hold goes back to the node that granted it. Where there is none such, a node that was never spoken to spends it.
fn give_back(started: &mut [Started<'_>], mac: Mac, hold: Hold) {
    match place_of(started, mac) {
        Some(place) => started[place].node.give_back(hold),
        None => Node::start(mac, &mut []).give_back(hold),
    };
}
