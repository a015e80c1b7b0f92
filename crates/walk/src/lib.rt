// The walk over a blob, after device.rs.
#![tactic(auto)]

mod row;
pub mod walk;
