// The calls that a Rust or C host links; include/cir.h declares them. They move words between the
// host's memory and the library and decide nothing; every call takes every input.
#![tactic(auto)]

mod blob_calls;
mod lower_calls;
mod program_calls;
