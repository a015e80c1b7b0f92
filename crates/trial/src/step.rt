// A trial's step: one node, tested and evaluated at once. The trial's room was cleared first, its words are below P, and the
// frame is the prover's, where a value's class is its node's dim; each of the three saves time. A step takes of the node the
// words that it tests, and no others. Tests are one where nothing is read or computed between them. The two kinds of cell differ in
// the constant, the limit, the table and what is stored.
ghost use Rattle.std.specs.Prelude.{true, false, ◌≡◌, ℕ, ◌+◌, ◌*◌, ◌<◌, ◌≤◌, length, get_or};
ghost use Rattle.extension.specs.Tower.{goldilocks};
ghost use Rattle.ir.specs.Words.{main_of, offset_of};
ghost use Rattle.values.specs.Values.{leaf_value, base, ext};
ghost use Rattle.values.specs.Frame.{lent_in, leaves, word, triple, Fits};
ghost use Rattle.trial_parts.specs.Trial.{Narrow, LeafFits, Tryable, Tried};
ghost use Rattle.trial_parts.specs.Step.{Clear, LowRoom, Standing, entry_of, Put, Operated, Stepped};

use extension::extensions_goldilocks::Ext;
use field::goldilocks::Fp;
use ir::node::{DIM_BASE, DIM_EXT, OP_ADD, OP_CONST_BASE, OP_EMBED, OP_NEG, OP_VAR};
use ir::program::Counts;
use trial_parts::parts::{all_base, entry, ext_binary, leaf_limit, put_base, put_ext};
use values::frame::{Inputs, Limits, Strides};
use values::value::{BASE, base_operation, ext_leaf};

// A cell of the main trace.
fn step_main(
    c: Counts,
    m: Limits,
    stride: usize,
    i: usize,
    x: u32,
    y: u32,
    main: &[u64],
    room: &mut [u64],
) -> bool
    requires { Narrow m × ((step col : ℕ) → step < m.steps → col < m.main → step * stride + col < length main.now) × Clear room.old i }
    ensures { result ≡ true → LeafFits c m (record { tag = 2; x = x; y = y; dim = 0 }) × (main_of y ≡ true) × Put (base (word main.now (offset_of y * stride + x))) 0 i room.old room.new }
{
    let step = (y / 256 % 256) as usize;
    let col = x as usize;
    if m.steps <= step || y % 256 != 0 || y / 65536 != 1 || m.main <= col {
        return false;
    }
    let v = Fp::reduce(main[step * stride + col]);
    put_base(room, i, v);
    true
}

// A cell of the aux trace.
fn step_aux(
    c: Counts,
    m: Limits,
    stride: usize,
    i: usize,
    x: u32,
    y: u32,
    aux: &[u64],
    room: &mut [u64],
) -> bool
    requires { Narrow m × ((step col : ℕ) → step < m.steps → col < m.aux → 3 * (step * stride + col) + 3 ≤ length aux.now) × (4 * i + 4 ≤ length room.old) }
    ensures { result ≡ true → LeafFits c m (record { tag = 2; x = x; y = y; dim = 1 }) × (main_of y ≡ false) × Put (ext (triple aux.now (offset_of y * stride + x))) 1 i room.old room.new }
{
    let step = (y / 256 % 256) as usize;
    let col = x as usize;
    if m.steps <= step || y % 256 != 0 || y / 65536 != 0 || m.aux <= col {
        return false;
    }
    let v = ext_leaf(aux, step * stride + col);
    let limbs = v.limbs;
    put_ext(room, i, limbs);
    true
}

fn step_const(
    c: Counts,
    m: Limits,
    i: usize,
    x: u32,
    y: u32,
    dim: u32,
    bases: &[u64],
    room: &mut [u64],
) -> bool
    requires { Narrow m × (c.bases ≤ length bases.now) × Clear room.old i }
    ensures { result ≡ true → LeafFits c m (record { tag = 0; x = x; y = y; dim = dim }) × Put (base (word bases.now x)) dim i room.old room.new }
{
    let place = x as usize;
    if y != 0 || dim != DIM_BASE || c.bases <= place {
        return false;
    }
    let v = Fp::reduce(bases[place]);
    put_base(room, i, v);
    true
}

// A constant of the extension, a uniform or the table offset.
fn step_entry(
    c: Counts,
    m: Limits,
    i: usize,
    tag: u32,
    x: u32,
    y: u32,
    dim: u32,
    inputs: &Inputs,
    room: &mut [u64],
) -> bool
    requires { let l = lent_in inputs.now in Narrow m × (3 * c.exts ≤ length l.exts) × (3 * m.challenges ≤ length l.challenges) × (3 * m.alphas ≤ length l.alphas) × (4 * i + 4 ≤ length room.old) × (tag ≡ 0 → ⊥) × (tag ≡ 2 → ⊥) }
    ensures { let l = lent_in inputs.now in result ≡ true → LeafFits c m (record { tag = tag; x = x; y = y; dim = dim }) × Put (ext (entry_of tag x l.exts l.challenges l.alphas l.offset)) dim i room.old room.new }
{
    let place = x as usize;
    if y != 0 || dim != DIM_EXT || leaf_limit(c, m, tag) <= place {
        return false;
    }
    let v = entry(tag, place, inputs);
    let limbs = v.limbs;
    put_ext(room, i, limbs);
    true
}

fn step_leaf(
    c: Counts,
    m: Limits,
    s: Strides,
    i: usize,
    tag: u32,
    x: u32,
    y: u32,
    dim: u32,
    inputs: &Inputs,
    room: &mut [u64],
) -> bool
    requires { Fits s m c (lent_in inputs.now) × (s.wide ≡ false) × Narrow m × Clear room.old i }
    ensures { result ≡ true → LeafFits c m (record { tag = tag; x = x; y = y; dim = dim }) × Put (leaf_value goldilocks (leaves s (lent_in inputs.now)) tag x y) dim i room.old room.new }
{
    if tag == OP_VAR {
        if dim == DIM_BASE {
            return step_main(c, m, s.main, i, x, y, inputs.main, room);
        }
        if dim != DIM_EXT {
            return false;
        }
        return step_aux(c, m, s.aux, i, x, y, inputs.aux, room);
    }
    if tag == OP_CONST_BASE {
        return step_const(c, m, i, x, y, dim, inputs.bases, room);
    }
    step_entry(c, m, i, tag, x, y, dim, inputs, room)
}

// Neg keeps its operand's class, Embed is extension.
fn step_unary(i: usize, tag: u32, x: usize, y: u32, dim: u32, room: &mut [u64]) -> bool
    requires { (9 ≤ tag) × (x < i) × Clear room.old i }
    ensures { result ≡ true → Operated i tag x y dim room.old room.new }
{
    if y != 0 {
        return false;
    }
    let at = 4 * x;
    if tag == OP_NEG {
        if room[at] != dim as u64 {
            return false;
        }
        if dim == DIM_BASE {
            let v = Fp::neg(room[at + 1]);
            put_base(room, i, v);
            return true;
        }
        if dim != DIM_EXT {
            return false;
        }
        let v = Ext::load(room, at + 1).neg();
        put_ext(room, i, v);
        return true;
    }
    if tag != OP_EMBED || dim != DIM_EXT {
        return false;
    }
    let v = Ext::load(room, at + 1).reduce();
    put_ext(room, i, v);
    true
}

// Add, Sub or Mul: base where both operands are.
fn step_binary(i: usize, tag: u32, x: usize, y: usize, dim: u32, room: &mut [u64]) -> bool
    requires { (6 ≤ tag) × (tag < 9) × (x < i) × (y < i) × Clear room.old i × LowRoom room.old i }
    ensures { result ≡ true → Operated i tag x y dim room.old room.new }
{
    let at = 4 * x;
    let to = 4 * y;
    if all_base(dim as u64, room[at], room[to]) {
        let v = base_operation(tag, room[at + 1], room[to + 1]);
        put_base(room, i, v);
        return true;
    }
    if dim != DIM_EXT || (room[at] == BASE && room[to] == BASE) {
        return false;
    }
    let v = ext_binary(tag, Ext::load(room, at + 1), Ext::load(room, to + 1));
    put_ext(room, i, v);
    true
}

fn step_operation(i: usize, tag: u32, x: u32, y: u32, dim: u32, room: &mut [u64]) -> bool
    requires { (6 ≤ tag) × Clear room.old i × LowRoom room.old i }
    ensures { result ≡ true → (x < i) × Operated i tag x y dim room.old room.new }
{
    let first = x as usize;
    if i <= first {
        return false;
    }
    if tag < OP_NEG {
        let second = y as usize;
        if i <= second {
            return false;
        }
        return step_binary(i, tag, first, second, dim, room);
    }
    step_unary(i, tag, first, y, dim, room)
}

fn step(
    c: Counts,
    m: Limits,
    s: Strides,
    i: usize,
    inputs: &Inputs,
    nodes: &[u32],
    room: &mut [u64],
) -> bool
    requires { Standing s m c (lent_in inputs.now) nodes.now room.old i }
    ensures { result ≡ true → Stepped s m c (lent_in inputs.now) nodes.now i room.old room.new }
{
    let at = 4 * i;
    let tag = nodes[at];
    let x = nodes[at + 1];
    let y = nodes[at + 2];
    let dim = nodes[at + 3];
    if tag < OP_ADD {
        return step_leaf(c, m, s, i, tag, x, y, dim, inputs, room);
    }
    step_operation(i, tag, x, y, dim, room)
}

// Every node's step in order, until one does not fit.
pub fn pass(
    c: Counts,
    m: Limits,
    s: Strides,
    inputs: &Inputs,
    nodes: &[u32],
    room: &mut [u64],
) -> bool
    requires { Tryable s m c (lent_in inputs.now) (length nodes.now) (length room.old) × ((k : ℕ) → get_or room.old k 0 ≡ 0) }
    ensures { result ≡ true → Tried s m c (lent_in inputs.now) nodes.now room.old room.new }
{
    for i in 0..c.nodes {
        if !step(c, m, s, i, inputs, nodes, room) {
            return false;
        }
    }
    true
}
