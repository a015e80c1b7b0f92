// The calls on programs and blobs whose tables are bytes, as one static library.
#![tactic(auto)]

pub mod byte_calls;
