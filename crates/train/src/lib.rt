//! What a train is: lines of consists, what their nodes report, and the directory that a line gives.
//!
//! The functions here only carry theorems, each in its contract.

#![tactic(auto)]

ghost use Rattle.train.specs.Theorems.{FitsOneLine, OneDirectory, Agreement, Numbered, LimitsSuffice};

/// Reports fit one line alone, read from one end or the other.
pub fn fits_one_line()
    ensures { FitsOneLine }
{}

/// Lines that agree, and lines that fit the same reports, give one directory and one counter.
pub fn one_directory()
    ensures { OneDirectory }
{}

/// Agreement is an equivalence, and keeps the rules that do not depend on who is awake.
pub fn agreement_keeps_rules()
    ensures { Agreement }
{}

/// Nodes and subnets are numbered from 1 without a gap, each number for one node or one network.
pub fn numbered_without_gap()
    ensures { Numbered }
{}

/// Within the limits every number of a row fits its bits, and there are at most 128 rows.
pub fn limits_suffice()
    ensures { LimitsSuffice }
{}
