// A program's nodes in lent words, shared through hash places, after `push` and the map `cse` of builder.rs.
#![tactic(auto)]

pub mod table;
pub mod tests;
