// The builder's calls on nodes and places as one call, for callers that take a call as data.
#![tactic(auto)]

pub mod answers;
pub mod call;
