// What evaluators refuse, by number and place, and where they write what they find.
#![tactic(auto)]

pub mod evals;
pub mod frame;
pub mod refuse;
