// The walk over bytes: a stored blob, a frame and evals as little-endian words.
#![tactic(auto)]

pub mod walking;
