//! From reports to the line that they fit: neighbours, the chain, the consists along it, and the theorems on what is answered.
//!
//! The functions here only carry theorems, each in its contract.

#![tactic(auto)]

ghost use Rattle.fitting.specs.Theorems.{Inaugurates, NodesAgree};

/// Rows are answered exactly where a line within the limits fits, and each refusal says why none does.
pub fn inaugurates()
    ensures { Inaugurates }
{}

/// Nodes whose fitting lines agree answer the same rows, whoever sleeps.
pub fn nodes_agree()
    ensures { NodesAgree }
{}
