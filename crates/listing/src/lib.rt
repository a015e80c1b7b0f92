// The listing of a stored blob, as text.
#![tactic(auto)]

pub mod listing;
