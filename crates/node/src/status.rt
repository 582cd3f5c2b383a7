//! What is known of a node of the train.

use report::Uuid;

/// Whether a report of a node is held.
#[derive(Clone, Copy, PartialEq, Eq, Debug)]
pub enum Presence {
    Awake,
    Silent,
}

/// The consist of a node, its position there from end 1, and whether it is awake.
#[derive(Clone, Copy, PartialEq, Eq, Debug)]
pub struct Status {
    pub uuid: Uuid,
    pub position: u8,
    pub presence: Presence,
}
