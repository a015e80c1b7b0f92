// The builder's calls on bytes, as one static library.
#![tactic(auto)]

pub mod builder_byte_calls;
