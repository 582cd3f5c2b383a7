//! What the calls of a node do, what holds of whole runs of them, and what is promised of two nodes.
//!
//! Definitions and proofs alone: the calls are in `node`, and its `rehearse` promises what is said here.

#![tactic(auto)]
