// Stored form A, part by part: words and constants, the trailer, the framing, the room of a file.
#![tactic(auto)]

pub mod form;
pub mod reading;
pub mod writing;
