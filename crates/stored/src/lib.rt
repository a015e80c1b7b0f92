// Stored form A: a blob as bytes.
#![tactic(auto)]

pub mod read;
pub mod write;
