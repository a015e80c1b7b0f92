// Runs the calls on programs over a sample of small programs with frames, on standard input, and holds each answer and
// each word to the numbers there. The file stdin beside this is what
// `cargo run --release --offline -p differential --bin program_sample` prints in rust/; the head of
// rust/differential/src/programs/sample.rs says what the numbers are.
#![tactic(auto)]

mod calls;
mod limits;
mod line;

use calls::hold_calls;
use limits::hold_limits;
use line::{NODE_WORDS, ROOTS, read_case};
use sample::fault::Fault;
use sample::input::sample_numbers;
use sample::line::{Line, Lines};
use sample::report::report;
use std::io;

// There is room for so many numbers.
const NUMBERS: usize = 8192;

fn replay(numbers: &[u64]) -> Result<(), Fault> {
    let mut line = Line::new(numbers);
    let mut nodes = [0u32; NODE_WORDS];
    let mut roots = [0u32; ROOTS];
    let case = read_case(&mut line, &mut nodes, &mut roots)?;
    hold_calls(&mut line, &case)
}

fn main(rt: HostRuntime) -> io::Result<()> {
    let mut room = [0u64; NUMBERS];
    let numbers = sample_numbers(&rt, &mut room)?;
    for (case, line) in Lines::new(numbers).enumerate() {
        print!(rt; "case {case}")?;
        report(&rt, replay(line))?;
    }
    hold_limits(&rt)
}
