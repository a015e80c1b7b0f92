// A builder's tables of constants: where a value stands, and what is written of a new one.
#![tactic(auto)]

pub mod constants;
