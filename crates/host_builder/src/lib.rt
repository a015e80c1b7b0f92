// The builder's calls that a Rust or C host links; include/cir.h declares them. Every call takes every input.
#![tactic(auto)]

pub mod builder_calls;
