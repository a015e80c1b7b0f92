// What lowering makes, says and leaves, and the functions that write it.
#![tactic(auto)]

pub mod parts;
