// The evaluators, after interp.rs.
#![tactic(auto)]

pub mod interp;
