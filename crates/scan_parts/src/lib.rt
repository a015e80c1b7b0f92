// The scan, part by part: slots taken and given back, and the words of a node.
#![tactic(auto)]

pub mod pools;
pub mod spelling;
