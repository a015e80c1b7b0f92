// The frame that an evaluator reads.
use extension::extensions_goldilocks::Ext;

// What a leaf may name: a step, a column of either trace, an index of either uniform table, and whether there
// is a table offset (1) or none (0).
#[derive(Clone, Copy)]
pub struct Limits {
    pub steps: usize,
    pub main: usize,
    pub aux: usize,
    pub challenges: usize,
    pub alphas: usize,
    pub offsets: usize,
}

// How the traces are addressed: cells a step in either, and whether main cells are extension values.
#[derive(Clone, Copy)]
pub struct Strides {
    pub wide: bool,
    pub main: usize,
    pub aux: usize,
}

// What leaves are read from: the two tables of constants, the cells of both traces, the two uniform tables, and the table
// offset.
#[derive(Clone, Copy)]
pub struct Inputs<'a> {
    pub bases: &'a [u64],
    pub exts: &'a [u64],
    pub main: &'a [u64],
    pub aux: &'a [u64],
    pub challenges: &'a [u64],
    pub alphas: &'a [u64],
    pub offset: Ext,
}
