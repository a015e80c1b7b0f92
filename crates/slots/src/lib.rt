// What the walk of a row reads, computes and writes: cells, operands in slots, arithmetic, roots.
#![tactic(auto)]

pub mod arith;
pub mod cell;
pub mod evals;
pub mod leaf;
pub mod load;
