// What a step of the trial reads, computes and stores.
#![tactic(auto)]

pub mod parts;
