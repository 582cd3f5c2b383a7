//! Holds: while one is out, no other directory comes into force.

ghost use Rattle.plan.specs.Meaning.{Meaning};
ghost use Rattle.runs.specs.Calls.{Does, hold as holding, give_back as giving_back};
ghost use Rattle.node.specs.Seen.{seen};
ghost use Rattle.node.specs.Told.{hold_told, return_told};

use crate::fault::Busy;
use crate::hold::Hold;
use crate::node::Node;

/// At most so many holds are out.
const MOST: u8 = 16;

impl Node<'_> {
    /// Grants a hold.
    #[tactic(auto, using(crate::proofs::Steps::quiet))]
    pub fn hold(&mut self) -> Result<Hold, Busy>
        ensures { (plan : Meaning) → Does plan (seen self.old) holding (hold_told result) (seen self.new) }
    {
        if self.holds >= MOST {
            return Err(Busy);
        }
        self.holds += 1;
        Ok(Hold { mac: self.mac })
    }

    /// Takes a hold back, and answers whether it was one of this node's. It is spent either way.
    #[tactic(auto, using(crate::proofs::Steps::quiet))]
    pub fn give_back(&mut self, hold: Hold) -> bool
        ensures { (plan : Meaning) → Does plan (seen self.old) (giving_back hold.mac.0) (return_told result) (seen self.new) }
    {
        let Hold { mac } = hold;
        let is_out = mac == self.mac && self.holds > 0;
        if is_out {
            self.holds -= 1;
        }
        is_out
    }
}
