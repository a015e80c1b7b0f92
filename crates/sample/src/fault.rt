// What keeps a case from agreeing with its line.
use std::fmt;

// Numbers of a line are counted from 0.
#[derive(Clone, Copy, Debug, PartialEq, Eq)]
pub enum Fault {
    // A call gave another word than the number at a place, which the line wants.
    Differs { at: usize, wanted: u64, found: u64 },
    // A call wrote a word that it has to leave, before it came to a place.
    Touched { at: usize },
    // A call left something else than 0 in a word that it has to clear, before it came to a place.
    Uncleared { at: usize },
    // The line ends before its tables or its answers do.
    Cut,
    // The line goes on after its answers.
    Spare,
    // The line needs more room than this program has, or a word of 32 bits is none.
    NoRoom,
    // The line is of a kind that this program does not replay.
    UnknownKind,
}

// What follows the name of a case.
impl fmt::Display for Fault {
    fn fmt<W: fmt::Write>(&self, f: &mut fmt::Formatter<W>) -> fmt::Result {
        match self {
            Fault::Differs { at, wanted, found } => {
                write!(f, ": number {at} has to be {wanted} and is {found}")
            }
            Fault::Touched { at } => {
                write!(
                    f,
                    ": a word is written that has to stay, before number {at}"
                )
            }
            Fault::Uncleared { at } => {
                write!(f, ": a word is not 0 that has to be, before number {at}")
            }
            Fault::Cut => write!(f, " is shorter than its counts say"),
            Fault::Spare => write!(f, " has numbers to spare"),
            Fault::NoRoom => write!(f, " needs more room than this program has"),
            Fault::UnknownKind => write!(f, " is of a kind that this program does not replay"),
        }
    }
}
