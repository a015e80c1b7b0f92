// What a blob is, and what the check asks of one node and one root.
#![tactic(auto)]

pub mod blob;
pub mod legal;
