// A node's value: its class and its limbs, a base value embedded.
ghost use Rattle.std.specs.Prelude.{cond, List, [], ◌∷◌, ◌≡◌, ℕ, ◌+◌, ◌*◌, ◌%◌, ◌<◌, ◌≤◌, length, get_or};
ghost use Rattle.field.specs.Base.{p, Is};
ghost use Rattle.extension.specs.Ext.{Limbs};
ghost use Rattle.extension.specs.Tower.{goldilocks, remainders};
ghost use Rattle.values.specs.Values.{leaf_value, operation_value, base, ext};
ghost use Rattle.ir.specs.Words.{main_of, offset_of};
ghost use Rattle.values.specs.Frame.{word, triple, main_cell, lent_in, leaves, MainIn, CellIn, LeafIn};
ghost use Rattle.values.specs.Room.{ValueIs};
ghost use Rattle.values.specs.Operations.{base_op, ext_op, Operates};

use super::frame::{Inputs, Strides};
use extension::extensions_goldilocks::Ext;
use field::goldilocks::Fp;
use ir::node::{
    OP_ADD, OP_ALPHA_POW, OP_CONST_BASE, OP_CONST_EXT, OP_NEG, OP_RAP_CHALLENGE, OP_SUB, OP_VAR,
};

#[derive(Clone, Copy)]
pub struct Value {
    pub class: u64,
    pub limbs: Ext,
}

// The classes, numbers and no enum: a class is the first of a value's words in the room that is lent.
pub const BASE: u64 = 0;

pub const EXT: u64 = 1;

impl Value {
    // A base value, embedded.
    pub fn of_base(x: u64) -> Value
        ensures { result ≡ record { class = 0; limbs = record { limbs = x ∷ 0 ∷ 0 ∷ [] } } }
    {
        Value {
            class: BASE,
            limbs: Ext { limbs: [x, 0, 0] },
        }
    }

    pub fn of_ext(limbs: Ext) -> Value
        ensures { result ≡ record { class = 1; limbs = limbs } }
    {
        Value { class: EXT, limbs }
    }
}

// A base leaf, as the room keeps it.
pub fn base_leaf(x: u64) -> Value
    ensures { ValueIs (base (x % p)) result.class result.limbs.limbs }
{
    Value::of_base(Fp::reduce(x))
}

// Extension leaf k of a table.
pub fn ext_leaf(s: &[u64], k: usize) -> Value
    requires { 3 * k + 3 ≤ length s.now }
    ensures { ValueIs (ext (triple s.now k)) result.class result.limbs.limbs }
{
    Value::of_ext(Ext::load(s, 3 * k).reduce())
}

// A main cell: an extension value in the verifier's frame.
fn main_cell(wide: bool, at: usize, main: &[u64]) -> Value
    requires { MainIn wide at (length main.now) }
    ensures { ValueIs (cond wide (ext (triple main.now at)) (base (word main.now at))) result.class result.limbs.limbs }
{
    if wide {
        ext_leaf(main, at)
    } else {
        base_leaf(main[at])
    }
}

fn cell(s: Strides, x: u32, y: u32, main: &[u64], aux: &[u64]) -> Value
    requires { CellIn s x y (length main.now) (length aux.now) }
    ensures { ValueIs (cond (main_of y) (main_cell s.wide s.main main.now (offset_of y) x) (ext (triple aux.now (offset_of y * s.aux + x)))) result.class result.limbs.limbs }
{
    let step = (y / 256 % 256) as usize;
    let col = x as usize;
    if y / 65536 % 2 != 0 {
        main_cell(s.wide, step * s.main + col, main)
    } else {
        ext_leaf(aux, step * s.aux + col)
    }
}

pub fn offset_leaf(offset: Ext) -> Value
    ensures { ValueIs (ext (remainders 3 offset.limbs)) result.class result.limbs.limbs }
{
    Value::of_ext(offset.reduce())
}

// A leaf by its tag, inside the lent memory.
#[tactic(auto, unfolding(crate::specs::Values::leaf_value))]
pub fn leaf(tag: u32, x: u32, y: u32, s: Strides, inputs: &Inputs) -> Value
    requires { LeafIn s tag x y (lent_in inputs.now) }
    ensures { ValueIs (leaf_value goldilocks (leaves s (lent_in inputs.now)) tag x y) result.class result.limbs.limbs }
{
    match tag {
        OP_CONST_BASE => base_leaf(inputs.bases[x as usize]),
        OP_CONST_EXT => ext_leaf(inputs.exts, x as usize),
        OP_VAR => cell(s, x, y, inputs.main, inputs.aux),
        OP_RAP_CHALLENGE => ext_leaf(inputs.challenges, x as usize),
        OP_ALPHA_POW => ext_leaf(inputs.alphas, x as usize),
        _ => offset_leaf(inputs.offset),
    }
}

// Operands that stand in the room are below P.
#[tactic(auto, unfolding(crate::specs::Operations::base_op))]
pub fn base_operation(tag: u32, a: u64, b: u64) -> u64
    requires { (a < p) × (b < p) }
    ensures { Is (base_op tag a b) result }
{
    match tag {
        OP_ADD => Fp::add_reduced(a, b),
        OP_SUB => Fp::sub_reduced(a, b),
        _ => Fp::mul(a, b),
    }
}

#[tactic(auto, unfolding(crate::specs::Operations::ext_op))]
fn ext_operation(tag: u32, a: Ext, b: Ext) -> Ext
    ensures { Limbs 3 (ext_op tag a.limbs b.limbs) result.limbs }
{
    match tag {
        OP_ADD => a.add(b),
        OP_SUB => a.sub(b),
        _ => a.mul(b),
    }
}

// Add, Sub or Mul: base where both operands are.
fn binary(tag: u32, x: usize, y: usize, room: &[u64]) -> Value
    requires { (6 ≤ tag) × (tag < 9) × (4 * x + 4 ≤ length room.now) × (4 * y + 4 ≤ length room.now) × (get_or room.now (4 * x + 1) 0 < p) × (get_or room.now (4 * y + 1) 0 < p) }
    ensures { Operates room.now tag x y result.class result.limbs.limbs }
{
    let at = 4 * x;
    let to = 4 * y;
    if room[at] == BASE && room[to] == BASE {
        let r = base_operation(tag, room[at + 1], room[to + 1]);
        return Value::of_base(r);
    }
    let a = Ext::load(room, at + 1);
    let b = Ext::load(room, to + 1);
    Value::of_ext(ext_operation(tag, a, b))
}

// Neg keeps its operand's class, Embed is extension.
fn unary(tag: u32, x: usize, y: usize, room: &[u64]) -> Value
    requires { (9 ≤ tag) × (tag ≤ 10) × (4 * x + 4 ≤ length room.now) }
    ensures { Operates room.now tag x y result.class result.limbs.limbs }
{
    let at = 4 * x;
    if tag != OP_NEG {
        return Value::of_ext(Ext::load(room, at + 1).reduce());
    }
    if room[at] == BASE {
        return Value::of_base(Fp::neg(room[at + 1]));
    }
    Value::of_ext(Ext::load(room, at + 1).neg())
}

pub fn operation(tag: u32, x: usize, y: usize, room: &[u64]) -> Value
    requires { (6 ≤ tag) × (tag ≤ 10) × (4 * x + 4 ≤ length room.now) × (tag < 9 → 4 * y + 4 ≤ length room.now) × (get_or room.now (4 * x + 1) 0 < p) × (tag < 9 → get_or room.now (4 * y + 1) 0 < p) }
    ensures { Operates room.now tag x y result.class result.limbs.limbs }
{
    if tag < OP_NEG {
        binary(tag, x, y, room)
    } else {
        unary(tag, x, y, room)
    }
}
