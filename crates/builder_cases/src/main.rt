// Replays histories of builder calls on standard input, and holds each answer and each word to the numbers there. The file
// stdin beside this is what `cargo run --release --offline -p differential --bin builder_sample` prints in rust/; the head of
// rust/differential/src/builder/sample.rs says what the numbers are.
#![tactic(auto)]

mod history;
mod perform;
mod tables;

use history::replay;
use sample::input::sample_numbers;
use sample::line::Lines;
use sample::report::report;
use std::io;

// There is room for so many numbers.
const NUMBERS: usize = 16384;

fn main(rt: HostRuntime) -> io::Result<()> {
    let mut room = [0u64; NUMBERS];
    let numbers = sample_numbers(&rt, &mut room)?;
    for (case, line) in Lines::new(numbers).enumerate() {
        print!(rt; "history {case}")?;
        report(&rt, replay(line))?;
    }
    Ok(())
}
