// The trial of a program: each node tested and evaluated in one pass.
#![tactic(auto)]

pub mod step;
pub mod trial;
