// The cubic extension of the field.
#![tactic(auto)]

pub mod extensions_goldilocks;
