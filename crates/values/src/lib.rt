// The value of each node, and the pass over the nodes that the evaluators share, after interp.rs.
#![tactic(auto)]

pub mod frame;
pub mod run;
pub mod value;
