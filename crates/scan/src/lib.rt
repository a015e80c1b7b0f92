// The scan that gives nodes their slots, over any liveness, after device.rs.
#![tactic(auto)]

pub mod scan;
