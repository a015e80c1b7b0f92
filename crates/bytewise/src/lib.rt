// Check and lowering over bytes: tables as little-endian words, blobs in stored form A. The words go into rooms that the caller lends; what is decided is decided by the functions on words.
#![tactic(auto)]

pub mod checking;
pub mod lowering;
