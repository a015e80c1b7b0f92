// Operations on operands, in the base field and in the extension.
ghost use Rattle.std.specs.Prelude.{cond, ◌≡◌, ◌<◌, ◌≤◌, eqb, length};
ghost use Rattle.values.specs.Frame.{lent_in};
ghost use Rattle.blob_rules.specs.Blob.{instr_of};
ghost use Rattle.slots.specs.Slots.{slot_words};
ghost use Rattle.slots.specs.Steps.{BaseLegal, ExtLegal, UniformsLong, BaseGives, ExtGives};

use super::load::{load_base, load_ext};
use blob_rules::blob::{BlobCounts, NodeWords};
use extension::extensions_goldilocks::Ext;
use field::goldilocks::Fp;
use ir::frame::Shape;
use ir::node::{OP_MUL, OP_NEG, OP_SUB};
use values::frame::Inputs;

// The result of an operation, out of those of all three. This takes no jump: which operation comes next cannot be foretold,
// and a jump gone wrong costs more than computing all three.
fn chosen(op: u32, sum: u64, difference: u64, product: u64) -> u64
    ensures { result ≡ cond (eqb op 8) product (cond (eqb op 7) difference sum) }
{
    let either = if op == OP_SUB { difference } else { sum };
    if op == OP_MUL { product } else { either }
}

// Add, Sub or Mul of base operands.
fn base_binary(c: BlobCounts, w: NodeWords, bases: &[u64], slots: &[u64]) -> u64
    requires { (6 ≤ w.op) × (w.op < 9) × (c.bases ≤ length bases.now) × (slot_words c ≤ length slots.now) × BaseLegal c w.a × BaseLegal c w.b }
    ensures { BaseGives c bases.now slots.now (instr_of w) result }
{
    let x = load_base(c, w.a, bases, slots);
    let y = load_base(c, w.b, bases, slots);
    chosen(w.op, Fp::add(x, y), Fp::sub(x, y), Fp::mul(x, y))
}

// An operation whose result is base.
pub fn base_arith(c: BlobCounts, w: NodeWords, bases: &[u64], slots: &[u64]) -> u64
    requires { (6 ≤ w.op) × (w.op < 10) × (c.bases ≤ length bases.now) × (slot_words c ≤ length slots.now) × BaseLegal c w.a × (w.op < 9 → BaseLegal c w.b) }
    ensures { BaseGives c bases.now slots.now (instr_of w) result }
{
    if w.op < OP_NEG {
        base_binary(c, w, bases, slots)
    } else {
        Fp::neg(load_base(c, w.a, bases, slots))
    }
}

// The same of two extension results; the product costs too much to be computed along. Two values and a number and no closure:
// this compiles to a choice with no jump.
fn either(op: u32, sum: Ext, difference: Ext) -> Ext
    ensures { result.limbs ≡ cond (eqb op 7) difference.limbs sum.limbs }
{
    if op == OP_SUB { difference } else { sum }
}

// Add, Sub or Mul of operands as extension values.
fn ext_binary(c: BlobCounts, s: Shape, w: NodeWords, inputs: &Inputs, slots: &[u64]) -> Ext
    requires { (6 ≤ w.op) × (w.op < 9) × UniformsLong c s (lent_in inputs.now) × (slot_words c ≤ length slots.now) × ExtLegal c s w.a × ExtLegal c s w.b }
    ensures { ExtGives c s (lent_in inputs.now) slots.now (instr_of w) result.limbs }
{
    let x = load_ext(c, s, w.a, inputs, slots);
    let y = load_ext(c, s, w.b, inputs, slots);
    if w.op == OP_MUL {
        x.mul(y)
    } else {
        either(w.op, x.add(y), x.sub(y))
    }
}

// An operation whose result is extension: the negation or the embedding, where it is none of the three.
pub fn ext_arith(c: BlobCounts, s: Shape, w: NodeWords, inputs: &Inputs, slots: &[u64]) -> Ext
    requires { (6 ≤ w.op) × (w.op ≤ 10) × UniformsLong c s (lent_in inputs.now) × (slot_words c ≤ length slots.now) × ExtLegal c s w.a × (w.op < 9 → ExtLegal c s w.b) }
    ensures { ExtGives c s (lent_in inputs.now) slots.now (instr_of w) result.limbs }
{
    if w.op < OP_NEG {
        return ext_binary(c, s, w, inputs, slots);
    }
    let x = load_ext(c, s, w.a, inputs, slots);
    if w.op == OP_NEG { x.neg() } else { x.reduce() }
}
