// What a program reads, and the sample on standard input.
ghost use Rattle.std.specs.Prelude.{◌<◌, ◌≤◌, length, take, IfOk};
ghost use Rattle.std.specs.Io.KnownBytes.{Consumes, IsAtEnd};

use super::text::read_numbers;
use std::io;
use std::io::Read;

// There is room for so many bytes of a sample.
const TEXT: usize = 65536;

// Reads until the buffer is full or the input ends, and says how many bytes it put at the buffer's start: those that the
// input had left, and all of them where the buffer is not full. It counts no items: how far a read comes is the reader's to say.
pub fn fill<R: Read>(input: &mut R, buffer: &mut [u8]) -> io::Result<usize>
    ensures within { IfOk result (λ n. n ≤ length buffer.new) }
    ensures bytes { IfOk result (λ n. Consumes (R.remaining input.old) (R.remaining input.new) (take n buffer.new)) }
    ensures end { IfOk result (λ n. n < length buffer.new → IsAtEnd (R.remaining input.new)) }
{
    let mut done: usize = 0;
    while done < buffer.len() {
        let count = input.read(&mut buffer[done..])?;
        if count == 0 {
            break;
        }
        done += count;
    }
    Ok(done)
}

// Stores the numbers of the sample at the start of a room. Where it is no sample, it says so in words, and there are none.
pub fn sample_numbers<'a>(rt: &(impl Input + Print), room: &'a mut [u64]) -> io::Result<&'a [u64]> {
    let mut text = [0u8; TEXT];
    let length = fill(&mut rt.reader(), &mut text)?;
    if length == TEXT {
        println!(rt; "the sample is longer than this program reads")?;
    }
    match read_numbers(&text[..length], room) {
        Some(numbers) => Ok(numbers),
        None => {
            println!(rt;
                "the sample has something else than decimal numbers, or too many of them"
            )?;
            Ok(&[])
        }
    }
}
