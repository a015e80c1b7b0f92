// The walk of one row: it checks nothing and clears nothing. Slots that it fills hold the rule's values, others are kept.
ghost use Rattle.std.specs.Prelude.{true, ◌≡◌, ◌≤◌, length};
ghost use Rattle.values.specs.Frame.{lent_in};
ghost use Rattle.blob_rules.specs.Blob.{instr_of, lent_blob};
ghost use Rattle.blob_rules.specs.Check.{slot_in};
ghost use Rattle.slots.specs.Slots.{slot_words};
ghost use Rattle.slots.specs.Steps.{UniformsLong, NodeLegal, OperationGives, LentLong, NodeGives, stored, StepStores, NodesLegal, RowWalked};

use blob_rules::blob::{BlobCounts, BlobRef, NodeWords, is_ext, slot_of};
use ir::frame::Shape;
use ir::node::OP_ADD;
use slots::arith::{base_arith, ext_arith};
use slots::cell::Row;
use slots::leaf::leaf;
use values::frame::Inputs;
use values::value::Value;

// An operation's value: base or extension, as its result word says.
fn operation(c: BlobCounts, s: Shape, w: NodeWords, inputs: &Inputs, slots: &[u64]) -> Value
    requires { (6 ≤ w.op) × NodeLegal c s (instr_of w) × UniformsLong c s (lent_in inputs.now) × (slot_words c ≤ length slots.now) }
    ensures { OperationGives c s (lent_in inputs.now) slots.now (instr_of w) result.class result.limbs.limbs }
{
    if is_ext(w.res) {
        Value::of_ext(ext_arith(c, s, w, inputs, slots))
    } else {
        Value::of_base(base_arith(c, w, inputs.bases, slots))
    }
}

fn store(c: BlobCounts, res: u32, v: Value, slots: &mut [u64])
    requires { (slot_in c res ≡ true) × (slot_words c ≤ length slots.old) }
    ensures { slots.new ≡ stored c res v.limbs.limbs slots.old }
{
    let k = slot_of(res) as usize;
    let limbs = v.limbs;
    if is_ext(res) {
        limbs.store(slots, c.base_slots as usize + 3 * k);
    } else {
        slots[k] = limbs.limbs[0];
    }
}

// A node's value, from the slots before it.
fn node_value(
    c: BlobCounts,
    s: Shape,
    t: Row,
    w: NodeWords,
    inputs: &Inputs,
    slots: &[u64],
) -> Value
    requires { NodeLegal c s (instr_of w) × LentLong c s t.rows t.row (lent_in inputs.now) × (slot_words c ≤ length slots.now) }
    ensures { NodeGives c s t.rows t.row (lent_in inputs.now) slots.now (instr_of w) result.class result.limbs.limbs }
{
    if w.op < OP_ADD {
        leaf(c, s, t, w, inputs)
    } else {
        operation(c, s, w, inputs, slots)
    }
}

// A node: its value, into its slot.
fn step(c: BlobCounts, s: Shape, t: Row, w: NodeWords, inputs: &Inputs, slots: &mut [u64])
    requires { NodeLegal c s (instr_of w) × LentLong c s t.rows t.row (lent_in inputs.now) × (slot_words c ≤ length slots.old) }
    ensures { StepStores c s t.rows t.row (lent_in inputs.now) (instr_of w) slots.old slots.new }
{
    let v = node_value(c, s, t, w, inputs, slots);
    store(c, w.res, v, slots);
}

// Every node in order.
pub fn walk_nodes(blob: &BlobRef, s: Shape, t: Row, inputs: &Inputs, slots: &mut [u64])
    requires { NodesLegal (lent_blob blob.now) s × LentLong blob.now.counts s t.rows t.row (lent_in inputs.now) × (slot_words blob.now.counts ≤ length slots.old) }
    ensures { RowWalked (lent_blob blob.now) s t.rows t.row (lent_in inputs.now) blob.now.counts.nodes slots.old slots.new }
{
    let c = blob.counts;
    let n = c.nodes as usize;
    for i in 0..n {
        let w = NodeWords::at(blob.nodes, i);
        step(c, s, t, w, inputs, slots);
    }
}
