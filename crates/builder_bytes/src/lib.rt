// The builder's calls over bytes: tables as little-endian words, which go into rooms that the caller lends; what is decided
// is decided by the calls on words.
#![tactic(auto)]

pub mod calls;
pub mod constants;
pub mod roots;
