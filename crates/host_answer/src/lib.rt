// What the calls share: an answer as one number, an extension value from its limbs, and counts and shapes from numbers.
#![tactic(auto)]

pub mod answer;
pub mod numbers;
