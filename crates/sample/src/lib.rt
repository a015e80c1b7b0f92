// What the programs share that replay a printed sample: the numbers of its lines, their parts, and what keeps a case
// from agreeing. The head of rust/differential/src/lines.rs says what a line is. `blob_list`, which
// replays none, reads its file by `input::fill` too.
#![tactic(auto)]

pub mod fault;
pub mod input;
pub mod line;
pub mod report;
mod text;
pub mod word;
