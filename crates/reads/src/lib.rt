// Which trace columns a program reads in the next row.
#![tactic(auto)]

pub mod reads;
