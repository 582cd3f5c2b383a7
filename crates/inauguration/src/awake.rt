//! Awake nodes of the chain, and what each tells of its consist.

ghost use Rattle.std.specs.Prelude.{◌≡◌, ◌^◌, ◌<◌, ◌≤◌, length};
ghost use Rattle.inauguration.specs.Consists.{masks_of, goes};

use arrayvec::ArrayVec;
use directory::Way;
use directory::limits::NODES;
use keyed::Record;
use report::{Report, Uuid};

/// The report of an awake node, and how the node and its consist stand.
#[derive(Clone, Copy, Default)]
pub(crate) struct Awake {
    pub(crate) report: Report,
    pub(crate) way: Way,
}

/// Awake nodes in the order in which they are met.
pub(crate) type Nodes = ArrayVec<Awake, NODES>;

/// A consist is kept by its node met last.
impl Record for Awake {
    type Key = Uuid;

    ghost under = { λ a. a.report.uuid };

    fn key(&self) -> Uuid {
        self.report.uuid
    }
}

impl Awake {
    /// The UUID of its consist. By value, so that each half is known to fit 64 bits.
    pub(crate) fn uuid(self) -> Uuid
        ensures value { result ≡ self.report.uuid }
        ensures high { result.high < 2 ^ 64 }
        ensures low { result.low < 2 ^ 64 }
    {
        self.report.uuid
    }

    /// The masks of its consist, from end 1.
    #[tactic(auto, using(std::proofs::lemmas::List::take_min))]
    pub(crate) fn masks(&self) -> &[u8]
        ensures value { result.now ≡ masks_of self.now }
        ensures few { length result.now ≤ 4 }
    {
        let masks: &[u8] = &self.report.masks;
        let count = usize::from(self.report.nodes).min(masks.len());
        &masks[..count]
    }

    /// Whether `next`, met next, has the same masks and way round, and its position is met behind this one.
    pub(crate) fn goes_on(&self, next: &Awake) -> bool
        ensures { result ≡ goes next.now self.now }
    {
        next.masks() == self.masks()
            && match (next.way, self.way) {
                (Way::Forward, Way::Forward) => self.report.position < next.report.position,
                (Way::Turned, Way::Turned) => next.report.position < self.report.position,
                _ => false,
            }
    }
}
