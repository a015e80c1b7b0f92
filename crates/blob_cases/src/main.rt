// Runs the blob check and the walk over a sample of small blobs with frames, and lowering over one of small programs, on
// standard input, and holds each answer and each word to the numbers there. The file stdin beside this is what
// `cargo run --release --offline -p differential --bin blob_sample` prints in rust/; the heads of
// rust/differential/src/blobs/sample.rs and rust/differential/src/lowering/sample.rs say what the numbers are.
#![tactic(auto)]

mod blob_calls;
mod blob_case;
mod lower_calls;
mod lower_case;

use blob_calls::hold_calls;
use lower_calls::hold_lower;
use sample::fault::Fault;
use sample::input::sample_numbers;
use sample::line::{Line, Lines};
use sample::report::report;
use std::io;

// There is room for so many numbers,
const NUMBERS: usize = 16384;

// and for so many words of a case's nodes and roots.
const NODE_WORDS: usize = 256;

const ROOTS: usize = 64;

// A line says of which kind it is: 1, a blob with a frame; 2, a program to be lowered.
fn replay(numbers: &[u64]) -> Result<(), Fault> {
    let mut line = Line::new(numbers);
    let mut nodes = [0u32; NODE_WORDS];
    let mut roots = [0u32; ROOTS];
    let _length = line.number();
    match line.number() {
        1 => {
            let case = blob_case::read_case(&mut line, &mut nodes, &mut roots)?;
            hold_calls(&mut line, &case)
        }
        2 => {
            let case = lower_case::read_case(&mut line, &mut nodes, &mut roots)?;
            hold_lower(&mut line, &case)
        }
        _ => Err(Fault::UnknownKind),
    }
}

fn main(rt: HostRuntime) -> io::Result<()> {
    let mut room = [0u64; NUMBERS];
    let numbers = sample_numbers(&rt, &mut room)?;
    for (case, line) in Lines::new(numbers).enumerate() {
        print!(rt; "case {case}")?;
        report(&rt, replay(line))?;
    }
    Ok(())
}
