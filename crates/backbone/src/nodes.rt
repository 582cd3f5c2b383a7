//! The nodes that a scenario has started, and the holds in hand.

use crate::holds::Holds;
use crate::made::OwnedCall;
use crate::started::{Started, place_of};
use crate::unplayed::Unplayed;
use any_plan::AnyPlan;
use directory::limits::NODES;
use node::{Answer, Node};
use report::{Mac, Report};
use std::alloc::{AllocError, Global};

/// How many nodes can start.
const MOST: usize = 16;

/// Memory for the reports of all nodes that can start.
pub fn memory(heap: Global) -> Result<Vec<Report>, AllocError> {
    vec![in heap; Report::default(); MOST * NODES]
}

/// The nodes that have started, and the one that is spoken to. It can be let go only by `end`.
pub struct Nodes<'m> {
    /// Memory for the nodes that have not started.
    free: &'m mut [Report],
    started: Vec<Started<'m>>,
    /// The place of the node that is spoken to.
    current: Option<usize>,
    holds: Holds,
}

impl<'m> Nodes<'m> {
    /// As many can start as there is memory for.
    pub fn none(heap: Global, memory: &'m mut [Report]) -> Nodes<'m> {
        Nodes {
            free: memory,
            started: Vec::new(heap),
            current: None,
            holds: Holds::none(heap),
        }
    }

    /// The nodes that have started, in their order.
    pub fn started(&self) -> &[Started<'m>] {
        self.started.as_slice()
    }

    /// The node of a MAC.
    pub fn get(&self, mac: Mac) -> Result<&Started<'m>, Unplayed> {
        let started = self.started();
        let place = place_of(started, mac).ok_or(Unplayed::NoNodeOf(mac))?;
        Ok(&started[place])
    }

    /// The place of the node of a MAC.
    pub fn place_of(&self, mac: Mac) -> Option<usize> {
        place_of(self.started(), mac)
    }

    /// Speaks to the node at this place from now on.
    pub fn speak_to(&mut self, place: usize) {
        self.current = Some(place);
    }

    /// Starts a node with room for so many reports, and speaks to it from now on.
    pub fn start(&mut self, heap: Global, mac: Mac, places: usize) -> Result<(), Unplayed> {
        if self.place_of(mac).is_some() {
            return Err(Unplayed::Twice(mac));
        }
        let memory = self.free.split_off_mut(..NODES).ok_or(Unplayed::Full)?;
        let places = places.min(memory.len());
        let place = self.started.len();
        self.started.push(Started {
            node: Node::start(mac, &mut memory[..places]),
            mac,
            places,
            out: 0,
            counter: None,
            made: Vec::new(heap),
        })?;
        self.current = Some(place);
        Ok(())
    }

    /// The MAC that the oldest hold in hand bears.
    pub fn oldest_hold(&self) -> Result<Mac, Unplayed> {
        self.holds.oldest().ok_or(Unplayed::NoHold)
    }

    /// Makes a call on the node that is spoken to, and answers also how many holds of it are out.
    pub fn make(
        &mut self,
        plan: &AnyPlan,
        call: OwnedCall,
        out: &mut [u8],
    ) -> Result<(Answer, u64), Unplayed> {
        let current = self.current.ok_or(Unplayed::NoNode)?;
        let Some(started) = self.started.get_mut(current) else {
            return Err(Unplayed::NoNode);
        };
        let answer = started.make(&mut self.holds, plan, call.call(), out)?;
        let out = started.remember(call, answer)?;
        Ok((answer, out))
    }

    /// The holds in hand go back to the nodes that granted them.
    pub fn end(self) {
        let Nodes {
            free: _,
            mut started,
            current: _,
            holds,
        } = self;
        holds.end(started.as_mut_slice());
    }
}
