// The calls on stored form A that a Rust or C host links; include/cir.h declares them. Every call takes every input.
#![tactic(auto)]

mod stored_calls;
