// The tables of a program in the making.
use sample::line::Line;

// There is room for so many words of each table.
pub const NODE_WORDS: usize = 512;

pub const PLACES: usize = 256;

pub const BASES: usize = 32;

pub const EXT_WORDS: usize = 48;

pub const ROOTS: usize = 32;

// What is lent of them to a builder.
#[derive(Drop)]
pub struct Tables<'a> {
    pub nodes: &'a mut [u32],
    pub places: &'a mut [u32],
    pub bases: &'a mut [u64],
    pub exts: &'a mut [u64],
    pub roots: &'a mut [u32],
}

// How many words of each are lent.
#[derive(Clone, Copy)]
pub struct Lengths {
    pub nodes: usize,
    pub places: usize,
    pub bases: usize,
    pub exts: usize,
    pub roots: usize,
}

impl Lengths {
    // A line says how many nodes and extension constants there are, of four and three words each.
    pub fn read(line: &mut Line) -> Lengths {
        Lengths {
            nodes: line.count().saturating_mul(4),
            places: line.count(),
            bases: line.count(),
            exts: line.count().saturating_mul(3),
            roots: line.count(),
        }
    }
}
