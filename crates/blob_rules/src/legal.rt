// What the check asks of one node and one root, and the bytes that say which slots were filled.
ghost use Rattle.std.specs.Prelude.{true, cond, not, ◌&&◌, ◌≡◌, ◌+◌, ◌*◌, ◌<◌, ◌≤◌, eqb, ltb, length, get_or, set};
ghost use Rattle.ir.specs.Words.{main_of};
ghost use Rattle.ir.specs.Refusals.{first};
ghost use Rattle.blob_rules.specs.Blob.{instr_at, instr_of, tags, kinds, is_ext};
ghost use Rattle.blob_rules.specs.Check.{Filled, slot_in, slot_of_class, cell_ok, operand_ok, node_ok, root_ok, short_check, slot_count};
ghost use Rattle.blob_rules.specs.Marks.{marked, mark_at};

use super::blob::{
    BlobCounts, NodeWords, OPK_ALPHA, OPK_BASE_CONST, OPK_BASE_SLOT, OPK_EXT_CONST, OPK_EXT_SLOT,
    OPK_OFFSET, OPK_RAP, is_ext, kind_of, payload_of, slot_of,
};
use ir::frame::Shape;
use ir::node::{
    OP_ADD, OP_ALPHA_POW, OP_CONST_BASE, OP_CONST_EXT, OP_EMBED, OP_MUL, OP_NEG, OP_RAP_CHALLENGE,
    OP_SUB, OP_VAR,
};

// Slot k of a class, whose bytes start at `first` and are `count`, is there and was filled. Two classes share the bytes.
fn slot_filled(marks: &[u8], first: usize, count: u32, k: u32) -> bool
    requires { first + count ≤ length marks.now }
    ensures { result ≡ (ltb k count && not (eqb (get_or marks.now (first + k) 0) 0)) }
{
    k < count && marks[first + k as usize] != 0
}

// An operand of a result that is extension where `wide` is true. Tests are joined by `&`, with no branch between them.
#[tactic(auto, unfolding(crate::specs::Check::operand_ok))]
fn operand_ok(c: BlobCounts, s: Shape, marks: &[u8], wide: bool, w: u32) -> bool
    requires { slot_count c ≤ length marks.now }
    ensures { result ≡ operand_ok tags kinds c s (marked c marks.now) wide w }
{
    let k = payload_of(w);
    match kind_of(w) {
        OPK_BASE_SLOT => slot_filled(marks, 0, c.base_slots, k),
        OPK_EXT_SLOT => wide & slot_filled(marks, c.base_slots as usize, c.ext_slots, k),
        OPK_BASE_CONST => k < c.bases,
        OPK_EXT_CONST => wide & (k < c.exts),
        OPK_RAP => wide & ((k as usize) < s.challenges),
        OPK_ALPHA => wide & ((k as usize) < s.alphas),
        OPK_OFFSET => wide & (k == 0),
        _ => false,
    }
}

// A result word names a slot that there is.
fn slot_in(c: BlobCounts, res: u32) -> bool
    ensures { result ≡ slot_in c res }
{
    if is_ext(res) {
        slot_of(res) < c.ext_slots
    } else {
        slot_of(res) < c.base_slots
    }
}

// And one of the class that is asked.
fn slot_of_class(c: BlobCounts, wide: bool, res: u32) -> bool
    ensures { result ≡ slot_of_class c wide res }
{
    if wide {
        is_ext(res) & slot_in(c, res)
    } else {
        !is_ext(res) & slot_in(c, res)
    }
}

// How many columns the trace has that a cell names.
fn width_of(s: Shape, y: u32) -> usize
    ensures { result ≡ cond (main_of y) s.main s.aux }
{
    if y / 65536 % 2 != 0 { s.main } else { s.aux }
}

// A trace cell inside the frame, with no other bit set.
#[tactic(auto, unfolding(crate::specs::Check::cell_ok))]
fn cell_ok(s: Shape, x: u32, y: u32) -> bool
    ensures { result ≡ cell_ok s x y }
{
    let step = (y / 256 % 256) as usize;
    let word_ok = (x < 65536) & (y < 131072) & (y % 256 == 0);
    word_ok & (step < s.steps) & ((x as usize) < width_of(s, y))
}

// An entry of a table of `size` entries, into a slot of its class.
fn entry_ok(c: BlobCounts, size: usize, wide: bool, w: NodeWords) -> bool
    ensures { result ≡ (ltb w.a size && eqb w.b 0 && slot_of_class c wide w.res) }
{
    ((w.a as usize) < size) & (w.b == 0) & slot_of_class(c, wide, w.res)
}

fn var_ok(c: BlobCounts, s: Shape, w: NodeWords) -> bool
    ensures { result ≡ (cell_ok s w.a w.b && slot_of_class c (not (main_of w.b)) w.res) }
{
    let aux = w.b / 65536 % 2 == 0;
    cell_ok(s, w.a, w.b) & slot_of_class(c, aux, w.res)
}

// A leaf reads no slot.
#[tactic(auto, unfolding(crate::specs::Check::node_ok))]
fn leaf_ok(c: BlobCounts, s: Shape, w: NodeWords) -> bool
    requires { w.op < 6 }
    ensures { (f : Filled) → result ≡ node_ok tags kinds c s f (instr_of w) }
{
    match w.op {
        OP_CONST_BASE => entry_ok(c, c.bases as usize, false, w),
        OP_CONST_EXT => entry_ok(c, c.exts as usize, true, w),
        OP_VAR => var_ok(c, s, w),
        OP_RAP_CHALLENGE => entry_ok(c, s.challenges, true, w),
        OP_ALPHA_POW => entry_ok(c, s.alphas, true, w),
        _ => (w.a == 0) & (w.b == 0) & slot_of_class(c, true, w.res),
    }
}

fn binary_ok(c: BlobCounts, s: Shape, marks: &[u8], w: NodeWords) -> bool
    requires { slot_count c ≤ length marks.now }
    ensures { result ≡ (operand_ok tags kinds c s (marked c marks.now) (is_ext w.res) w.a && operand_ok tags kinds c s (marked c marks.now) (is_ext w.res) w.b && slot_in c w.res) }
{
    let wide = is_ext(w.res);
    let first = operand_ok(c, s, marks, wide, w.a);
    let second = operand_ok(c, s, marks, wide, w.b);
    first & second & slot_in(c, w.res)
}

fn negation_ok(c: BlobCounts, s: Shape, marks: &[u8], w: NodeWords) -> bool
    requires { slot_count c ≤ length marks.now }
    ensures { result ≡ (operand_ok tags kinds c s (marked c marks.now) (is_ext w.res) w.a && eqb w.b 0 && slot_in c w.res) }
{
    operand_ok(c, s, marks, is_ext(w.res), w.a) & (w.b == 0) & slot_in(c, w.res)
}

fn embedding_ok(c: BlobCounts, s: Shape, marks: &[u8], w: NodeWords) -> bool
    requires { slot_count c ≤ length marks.now }
    ensures { result ≡ (operand_ok tags kinds c s (marked c marks.now) true w.a && eqb w.b 0 && slot_of_class c true w.res) }
{
    operand_ok(c, s, marks, true, w.a) & (w.b == 0) & slot_of_class(c, true, w.res)
}

#[tactic(auto, unfolding(crate::specs::Check::node_ok))]
fn operation_ok(c: BlobCounts, s: Shape, marks: &[u8], w: NodeWords) -> bool
    requires { (6 ≤ w.op) × (slot_count c ≤ length marks.now) }
    ensures { result ≡ node_ok tags kinds c s (marked c marks.now) (instr_of w) }
{
    match w.op {
        OP_ADD | OP_SUB | OP_MUL => binary_ok(c, s, marks, w),
        OP_NEG => negation_ok(c, s, marks, w),
        OP_EMBED => embedding_ok(c, s, marks, w),
        _ => false,
    }
}

pub fn node_ok(c: BlobCounts, s: Shape, nodes: &[u32], marks: &[u8], i: usize) -> bool
    requires { (4 * i + 4 ≤ length nodes.now) × (slot_count c ≤ length marks.now) }
    ensures { result ≡ node_ok tags kinds c s (marked c marks.now) (instr_at nodes.now i) }
{
    let w = NodeWords::at(nodes, i);
    if w.op < OP_ADD {
        leaf_ok(c, s, w)
    } else {
        operation_ok(c, s, marks, w)
    }
}

// Where the byte of a slot stands.
fn mark_at(c: BlobCounts, res: u32) -> usize
    ensures { result ≡ mark_at c res }
{
    let k = slot_of(res) as usize;
    if is_ext(res) {
        c.base_slots as usize + k
    } else {
        k
    }
}

pub fn set_mark(c: BlobCounts, marks: &mut [u8], res: u32)
    requires { (slot_in c res ≡ true) × (slot_count c ≤ length marks.old) }
    ensures { marks.new ≡ set marks.old (mark_at c res) 1 }
{
    let at = mark_at(c, res);
    marks[at] = 1;
}

// A root names a slot that was filled.
pub fn root_ok(c: BlobCounts, marks: &[u8], w: u32) -> bool
    requires { slot_count c ≤ length marks.now }
    ensures { result ≡ root_ok c (marked c marks.now) w }
{
    let k = slot_of(w);
    if is_ext(w) {
        slot_filled(marks, c.base_slots as usize, c.ext_slots, k)
    } else {
        slot_filled(marks, 0, c.base_slots, k)
    }
}

#[tactic(auto, unfolding(crate::specs::Check::short_check))]
pub fn short_check(c: BlobCounts, nodes: usize, roots: usize, marks: usize) -> bool
    ensures { result ≡ short_check c nodes roots marks }
{
    nodes < 4 * (c.nodes as usize)
        || roots < c.roots as usize
        || marks < c.base_slots as usize + c.ext_slots as usize
}
