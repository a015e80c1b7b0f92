// The refusals that the evaluators share, in document 01's order: 8, 9, 2, 1, then, after a call's own, 7 and 13.
ghost use Rattle.std.specs.Prelude.{true, false, not, ◌&&◌, ◌||◌, [], ◌≡◌, ◌+◌, ◌*◌, ◌^◌, ◌<◌, ◌≤◌, eqb, ltb, min, length};
ghost use Rattle.laws.specs.Folds.{lowest};
ghost use Rattle.ir.specs.Words.{node_at};
ghost use Rattle.ir.specs.Program.{too_many_nodes, too_many_roots};
ghost use Rattle.ir.specs.Shape.{over_shape};
ghost use Rattle.ir.specs.Refusals.{said_of_outcome, first, gives};
ghost use Rattle.values.specs.Frame.{cell_outside, outside, node_outside};
ghost use Rattle.evaluation.specs.Evaluation.{short_frame, short_memory, memory_rows, form_rows, short_evals, ext_root, TablesOk, RootsBelow};
ghost use Rattle.evaluation.specs.Attempt.{RootsFit};

use super::frame::Lengths;
use ir::frame::{Shape, over_shape};
use ir::node::{OP_ALPHA_POW, OP_RAP_CHALLENGE, OP_TABLE_OFFSET, OP_VAR};
use ir::program::{
    Counts, ill_formed, lowest_bad_root, short_tables, too_many_nodes, too_many_roots,
};
use ir::refusal::Refusal;
use values::frame::Limits;

// Whether the frame is shorter than its shape says; the products are small once the shape is within its limits.
#[tactic(auto, unfolding(crate::specs::Evaluation::short_frame))]
fn short_frame(s: Shape, limbs: usize, l: Lengths) -> bool
    requires { (over_shape s ≡ false) × (limbs ≤ 3) }
    ensures { result ≡ short_frame s limbs l }
{
    l.main < limbs * (s.steps * s.main)
        || l.aux < 3 * (s.steps * s.aux)
        || l.challenges < 3 * s.challenges
        || l.alphas < 3 * s.alphas
}

#[tactic(auto, unfolding(crate::specs::Evaluation::short_memory, ir::specs::Program::too_many_nodes))]
fn short_memory(c: Counts, s: Shape, limbs: usize, l: Lengths) -> bool
    requires { (too_many_nodes c ≡ false) × (over_shape s ≡ false) × (limbs ≤ 3) }
    ensures { result ≡ short_memory c s limbs l }
{
    short_tables(c, l.nodes, l.bases, l.exts, l.roots)
        || short_frame(s, limbs, l)
        || l.room < 4 * c.nodes
}

pub fn memory_refusal(c: Counts, s: Shape, limbs: usize, l: Lengths) -> Result<(), Refusal>
    requires { limbs ≤ 3 }
    ensures { said_of_outcome result ≡ first (memory_rows c s limbs l) (gives []) }
{
    if too_many_nodes(c) {
        return Err(Refusal::TooManyNodes);
    }
    if too_many_roots(c) {
        return Err(Refusal::TooManyRoots);
    }
    if over_shape(s) {
        return Err(Refusal::OverLimit);
    }
    if short_memory(c, s, limbs, l) {
        return Err(Refusal::ShortMemory);
    }
    Ok(())
}

#[tactic(auto, unfolding(values::specs::Frame::cell_outside))]
fn cell_outside(m: Limits, x: u32, y: u32) -> bool
    ensures { result ≡ cell_outside m x y }
{
    let col = x as usize;
    m.steps <= (y / 256 % 256) as usize
        || if y / 65536 % 2 != 0 {
            m.main <= col
        } else {
            m.aux <= col
        }
}

#[tactic(auto, unfolding(values::specs::Frame::outside))]
fn leaf_outside(m: Limits, tag: u32, x: u32, y: u32) -> bool
    ensures { result ≡ outside m tag x y }
{
    match tag {
        OP_VAR => cell_outside(m, x, y),
        OP_RAP_CHALLENGE => m.challenges <= x as usize,
        OP_ALPHA_POW => m.alphas <= x as usize,
        OP_TABLE_OFFSET => m.offsets == 0,
        _ => false,
    }
}

// Lent words may be more than n nodes.
fn lowest_outside(m: Limits, n: usize, nodes: &[u32]) -> Option<usize>
    requires { 4 * n ≤ length nodes.now }
    ensures { result ≡ lowest (node_outside m nodes.now) n }
{
    for i in 0..n {
        let at = 4 * i;
        if leaf_outside(m, nodes[at], nodes[at + 1], nodes[at + 2]) {
            return Some(i);
        }
    }
    None
}

// 7, then 13.
pub fn form_refusal(c: Counts, m: Limits, nodes: &[u32], roots: &[u32]) -> Result<(), Refusal>
    requires { (4 * c.nodes ≤ length nodes.now) × (c.roots ≤ length roots.now) }
    ensures { said_of_outcome result ≡ first (form_rows c m nodes.now roots.now) (gives []) }
{
    if let Some(place) = ill_formed(c, nodes, roots) {
        return Err(Refusal::IllFormed { place });
    }
    match lowest_outside(m, c.nodes, nodes) {
        Some(place) => Err(Refusal::LeafOutside { place }),
        None => Ok(()),
    }
}

// Whether the rooms for the values of `count` constraints, of which the first `leading` are base, are short.
pub fn eval_rooms_short(leading: usize, count: usize, base: usize, ext: usize) -> bool
    requires { 3 * count < 2 ^ 64 }
    ensures { result ≡ (ltb base (min leading count) || (ltb leading count && ltb ext (3 * count))) }
{
    if leading < count {
        base < leading || ext < 3 * count
    } else {
        base < count
    }
}

#[tactic(auto, unfolding(crate::specs::Evaluation::short_evals, ir::specs::Program::too_many_roots))]
pub fn short_evals(c: Counts, base: usize, ext: usize) -> bool
    requires { too_many_roots c ≡ false }
    ensures { result ≡ short_evals c base ext }
{
    eval_rooms_short(c.num_base, c.roots, base, ext)
}

pub fn root_is_ext(nodes: &[u32], root: usize) -> bool
    requires { 4 * root + 4 ≤ length nodes.now }
    ensures { result ≡ not (eqb (node_at nodes.now root).dim 0) }
{
    nodes[4 * root + 3] != 0
}

// Whether root i has to be base and is not.
fn wrong_class(i: usize, leading: usize, nodes: &[u32], root: usize) -> bool
    requires { 4 * root + 4 ≤ length nodes.now }
    ensures { result ≡ (ltb i leading && not (eqb (node_at nodes.now root).dim 0)) }
{
    i < leading && root_is_ext(nodes, root)
}

pub fn lowest_ext_root(c: Counts, nodes: &[u32], roots: &[u32]) -> Option<usize>
    requires { RootsBelow c nodes.now roots.now }
    ensures { result ≡ ext_root c nodes.now roots.now }
{
    let leading = c.num_base;
    let count = c.roots;
    for i in 0..count {
        let root = roots[i] as usize;
        if wrong_class(i, leading, nodes, root) {
            return Some(i);
        }
    }
    None
}

// Whether 14, the roots' part of 7, and 12 let a call through.
pub fn roots_fit(c: Counts, base: usize, ext: usize, nodes: &[u32], roots: &[u32]) -> bool
    requires { TablesOk c (length nodes.now) (length roots.now) }
    ensures { result ≡ true → RootsFit c base ext nodes.now roots.now }
{
    !short_evals(c, base, ext)
        && lowest_bad_root(c, roots).is_none()
        && lowest_ext_root(c, nodes, roots).is_none()
}
