// Words in little-endian bytes, taken out of lent bytes and put back.
#![tactic(auto)]

pub mod rooms;
pub mod words;
