// Lowering, after device.rs.
#![tactic(auto)]

pub mod lower;
