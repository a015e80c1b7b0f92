// What a case has come to, in words.
use super::fault::Fault;
use std::io;

// Ends the line that names the case.
pub fn report(rt: &impl Print, replayed: Result<(), Fault>) -> io::Result<()> {
    match replayed {
        Ok(()) => println!(rt; " agrees"),
        Err(fault) => println!(rt; "{fault}"),
    }
}
