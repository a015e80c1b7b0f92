// The places of a list that pass a test.
#![tactic(auto)]

pub mod places;
