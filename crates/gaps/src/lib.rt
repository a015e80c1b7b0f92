// The report of constraints that have no root.
#![tactic(auto)]

pub mod gaps;
