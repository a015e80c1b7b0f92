// A program over lent words: its counts, and the check that every call on a program makes.
ghost use Rattle.std.specs.Prelude.{false, cond, not, ◌&&◌, ◌≡◌, ◌+◌, ◌*◌, ◌<◌, ◌≤◌, eqb, leb, ltb, length, get_or};
ghost use Rattle.laws.specs.Folds.{lowest};
ghost use Rattle.ir.specs.Words.{node_at};
ghost use Rattle.ir.specs.Refusals.{said_of_outcome};
ghost use Rattle.ir.specs.Program.{too_many_nodes, too_many_roots, short_tables, joined, var_ok, leaf_ok, operation_ok, node_ok, ill_formed, checked};

use super::node::{
    DIM_BASE, DIM_EXT, OP_ADD, OP_CONST_BASE, OP_CONST_EXT, OP_EMBED, OP_NEG, OP_TABLE_OFFSET,
    OP_VAR,
};
use super::refusal::Refusal;

// What a program's tables hold, and num_base as the caller has it.
#[derive(Clone, Copy)]
pub struct Counts {
    pub nodes: usize,
    pub bases: usize,
    pub exts: usize,
    pub roots: usize,
    pub num_base: usize,
}

// A program over lent words: its counts, and its four tables.
#[derive(Clone, Copy)]
pub struct ProgramRef<'a> {
    pub counts: Counts,
    pub nodes: &'a [u32],
    pub bases: &'a [u64],
    pub exts: &'a [u64],
    pub roots: &'a [u32],
}

// The most nodes and constants, 2^29 - 1: an operand's payload has 29 bits.
pub const MOST: usize = 536870911;

// The most that 32 bits hold.
pub const MOST32: usize = 4294967295;

impl Counts {
    pub fn len(self) -> usize
        ensures { result ≡ self.nodes }
    {
        self.nodes
    }

    pub fn is_empty(self) -> bool
        ensures { result ≡ eqb self.nodes 0 }
    {
        self.nodes == 0
    }
}

#[tactic(auto, unfolding(crate::specs::Program::too_many_nodes))]
pub fn too_many_nodes(c: Counts) -> bool
    ensures { result ≡ too_many_nodes c }
{
    MOST < c.nodes || MOST < c.bases || MOST < c.exts
}

#[tactic(auto, unfolding(crate::specs::Program::too_many_roots))]
pub fn too_many_roots(c: Counts) -> bool
    ensures { result ≡ too_many_roots c }
{
    MOST32 < c.num_base || MOST32 < c.roots
}

// Whether one of the four tables is shorter than the counts say; the products are small once the counts are.
#[tactic(auto, unfolding(crate::specs::Program::short_tables, crate::specs::Program::too_many_nodes))]
pub fn short_tables(c: Counts, nodes: usize, bases: usize, exts: usize, roots: usize) -> bool
    requires { too_many_nodes c ≡ false }
    ensures { result ≡ short_tables c nodes bases exts roots }
{
    nodes < 4 * c.nodes || bases < c.bases || exts < 3 * c.exts || roots < c.roots
}

// The dim of a Var: base in the main trace, whose mark is bit 16.
fn var_dim(y: u32) -> u32
    ensures { result ≡ cond (ltb y 65536) 1 0 }
{
    if y < 65536 { DIM_EXT } else { DIM_BASE }
}

// The tests of a node are joined by `&`: with no branch between them.
#[tactic(auto, unfolding(crate::specs::Program::var_ok))]
fn var_ok(x: u32, y: u32, dim: u32) -> bool
    ensures { result ≡ var_ok x y dim }
{
    (x < 65536) & (y < 131072) & (y % 256 == 0) & (dim == var_dim(y))
}

#[tactic(auto, unfolding(crate::specs::Program::leaf_ok))]
fn leaf_ok(c: Counts, tag: u32, x: u32, y: u32, dim: u32) -> bool
    ensures { result ≡ leaf_ok c (record { tag = tag; x = x; y = y; dim = dim }) }
{
    match tag {
        OP_CONST_BASE => ((x as usize) < c.bases) & (y == 0) & (dim == DIM_BASE),
        OP_CONST_EXT => ((x as usize) < c.exts) & (y == 0) & (dim == DIM_EXT),
        OP_VAR => var_ok(x, y, dim),
        OP_TABLE_OFFSET => (x == 0) & (y == 0) & (dim == DIM_EXT),
        _ => (x < 65536) & (y == 0) & (dim == DIM_EXT),
    }
}

// The dim of a node that stands before another.
fn dim_at(nodes: &[u32], i: usize) -> u32
    requires { 4 * i + 4 ≤ length nodes.now }
    ensures { result ≡ (node_at nodes.now i).dim }
{
    nodes[4 * i + 3]
}

// Base exactly if both are. The greater of two dims is another answer where a word is neither 0 nor 1.
pub fn joined_dim(a: u32, b: u32) -> u32
    ensures { result ≡ joined a b }
{
    if (a == DIM_BASE) & (b == DIM_BASE) {
        DIM_BASE
    } else {
        DIM_EXT
    }
}

fn binary_ok(nodes: &[u32], i: usize, x: u32, y: u32, dim: u32) -> bool
    requires { (4 * i ≤ length nodes.now) × (x < i) }
    ensures { result ≡ (ltb y i && eqb dim (joined (node_at nodes.now x).dim (node_at nodes.now y).dim)) }
{
    (y as usize) < i && dim == joined_dim(dim_at(nodes, x as usize), dim_at(nodes, y as usize))
}

fn unary_ok(tag: u32, y: u32, dim: u32, operand: u32) -> bool
    ensures { result ≡ (eqb y 0 && cond (eqb tag 9) (eqb dim operand) (eqb tag 10 && eqb dim 1)) }
{
    match tag {
        OP_NEG => (y == 0) & (dim == operand),
        _ => (y == 0) & (tag == OP_EMBED) & (dim == DIM_EXT),
    }
}

#[tactic(auto, unfolding(crate::specs::Program::operation_ok))]
pub fn operation_ok(nodes: &[u32], i: usize, tag: u32, x: u32, y: u32, dim: u32) -> bool
    requires { 4 * i ≤ length nodes.now }
    ensures { result ≡ operation_ok nodes.now i (record { tag = tag; x = x; y = y; dim = dim }) }
{
    if i <= x as usize {
        return false;
    }
    if tag < OP_NEG {
        return binary_ok(nodes, i, x, y, dim);
    }
    unary_ok(tag, y, dim, dim_at(nodes, x as usize))
}

#[tactic(auto, unfolding(crate::specs::Program::node_ok))]
fn node_ok(c: Counts, nodes: &[u32], i: usize) -> bool
    requires { 4 * i + 4 ≤ length nodes.now }
    ensures { result ≡ node_ok c nodes.now i }
{
    let at = 4 * i;
    let tag = nodes[at];
    let x = nodes[at + 1];
    let y = nodes[at + 2];
    let dim = nodes[at + 3];
    if tag < OP_ADD {
        return leaf_ok(c, tag, x, y, dim);
    }
    operation_ok(nodes, i, tag, x, y, dim)
}

fn lowest_bad_node(c: Counts, nodes: &[u32]) -> Option<usize>
    requires { 4 * c.nodes ≤ length nodes.now }
    ensures { result ≡ lowest (λ i. not (node_ok c nodes.now i)) c.nodes }
{
    for i in 0..c.nodes {
        if !node_ok(c, nodes, i) {
            return Some(i);
        }
    }
    None
}

pub fn lowest_bad_root(c: Counts, roots: &[u32]) -> Option<usize>
    requires { c.roots ≤ length roots.now }
    ensures { result ≡ lowest (λ i. leb c.nodes (get_or roots.now i 0)) c.roots }
{
    for i in 0..c.roots {
        if c.nodes <= roots[i] as usize {
            return Some(i);
        }
    }
    None
}

// The lowest node that is not well-formed, else the lowest root.
#[tactic(auto, unfolding(crate::specs::Program::ill_formed))]
pub fn ill_formed(c: Counts, nodes: &[u32], roots: &[u32]) -> Option<usize>
    requires { (4 * c.nodes ≤ length nodes.now) × (c.roots ≤ length roots.now) }
    ensures { result ≡ ill_formed c nodes.now roots.now }
{
    lowest_bad_node(c, nodes).or_else(|| lowest_bad_root(c, roots))
}

// The program check: 8, 9, 1, 7.
pub fn check_program(
    c: Counts,
    nodes: &[u32],
    bases: &[u64],
    exts: &[u64],
    roots: &[u32],
) -> Result<(), Refusal>
    ensures { said_of_outcome result ≡ checked (record { counts = c; nodes = nodes.now; bases = bases.now; exts = exts.now; roots = roots.now }) }
{
    if too_many_nodes(c) {
        return Err(Refusal::TooManyNodes);
    }
    if too_many_roots(c) {
        return Err(Refusal::TooManyRoots);
    }
    if short_tables(c, nodes.len(), bases.len(), exts.len(), roots.len()) {
        return Err(Refusal::ShortMemory);
    }
    match ill_formed(c, nodes, roots) {
        Some(place) => Err(Refusal::IllFormed { place }),
        None => Ok(()),
    }
}
