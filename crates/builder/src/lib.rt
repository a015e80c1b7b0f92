// The builder over lent memory, after builder.rs: its calls.
#![tactic(auto)]

pub mod ir_builder;
