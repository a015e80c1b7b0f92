// The program, after ir.rs: node words, counts, refusals, the program check and the shape of a frame.
#![tactic(auto)]

pub mod frame;
pub mod node;
pub mod program;
pub mod refusal;
