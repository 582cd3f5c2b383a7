//! Why an inauguration is refused.

use report::Mac;

/// The first check that fails.
#[derive(Clone, Copy, PartialEq, Eq, Debug)]
pub enum Refused {
    /// No report is held under the own MAC: refusal 6.
    Mute,
    /// The report of this MAC names a neighbour that is not held or does not name it back: refusal 7.
    Loose(Mac),
    /// The reports are not one chain: refusal 8.
    Split,
    /// No line fits: refusal 9.
    Mixed,
    /// A line fits but for a limit: refusal 10.
    Long,
}
