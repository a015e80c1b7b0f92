// The blob check, after device.rs: it is exact.
#![tactic(auto)]

pub mod check;
