// Which nodes are emitted, who reads a node last, and which are roots.
#![tactic(auto)]

pub mod liveness;
