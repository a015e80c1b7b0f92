// Numbers as little-endian bytes.
#![tactic(auto)]

pub mod bytes;
