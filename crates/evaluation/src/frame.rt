// What was lent to an evaluator.

// The words lent for each table, and for the room.
#[derive(Clone, Copy)]
pub struct Lengths {
    pub nodes: usize,
    pub bases: usize,
    pub exts: usize,
    pub roots: usize,
    pub main: usize,
    pub aux: usize,
    pub challenges: usize,
    pub alphas: usize,
    pub room: usize,
}
