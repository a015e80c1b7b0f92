// The words of a node: operands are encoded by what they have now.
ghost use Rattle.std.specs.Prelude.{◌≡◌, ◌<◌, ◌≤◌, ◌+◌, ◌-◌, ◌*◌, length, get_or, [], ◌∷◌};
ghost use Rattle.std.proofs.lemmas.List.Edits.{sets};
ghost use Rattle.scan_parts.specs.Pools.{EncOk, WordsOk, Spelt};
ghost use Rattle.liveness.specs.LiveLists.{listed};
ghost use Rattle.scan_parts.specs.Scan.{uniform_kind, encode};

use blob_rules::blob::OPK_STEP;
use ir::node::{OP_ADD, OP_CONST_EXT, OP_NEG};

// A uniform leaf: the kind of its table, and its place there.
fn enc_uniform(tag: u32, x: u32) -> u32
    requires { (tag < 6) × (x < 536870912) }
    ensures { result ≡ uniform_kind tag * 536870912 + x }
{
    if tag <= OP_CONST_EXT {
        return (tag + 2) * OPK_STEP + x;
    }
    (tag + 1) * OPK_STEP + x
}

// A slot: its class is its kind.
fn enc_slot(class: u32, slot: u32) -> u32
    requires { (class < 2) × (0 < slot) × (slot ≤ 536870912) }
    ensures { result ≡ class * 536870912 + (slot - 1) }
{
    class * OPK_STEP + (slot - 1)
}

// An operand: its slot if it has one, else its place in a uniform table.
fn enc_operand(j: u32, nodes: &[u32], emitted: &[u32], slot_of: &[u32]) -> u32
    requires { EncOk j nodes.now emitted.now slot_of.now }
    ensures { result ≡ encode nodes.now (listed emitted.now [] []) (λ k. get_or slot_of.now k 0) j }
{
    let at = j as usize;
    let first = 4 * at;
    if emitted[at] == 0 {
        return enc_uniform(nodes[first], nodes[first + 1]);
    }
    enc_slot(nodes[first + 3], slot_of[at])
}

// The words of a node but its result.
#[derive(Clone, Copy)]
pub struct Words {
    pub op: u32,
    pub a: u32,
    pub b: u32,
}

// Leaves keep their words; operands are encoded by what they have now.
pub fn spell(i: usize, nodes: &[u32], emitted: &[u32], slot_of: &[u32]) -> Words
    requires { WordsOk i nodes.now emitted.now slot_of.now }
    ensures { Spelt i nodes.now emitted.now slot_of.now result.op result.a result.b }
{
    let first = 4 * i;
    let op = nodes[first];
    let x = nodes[first + 1];
    let y = nodes[first + 2];
    if op < OP_ADD {
        return Words { op, a: x, b: y };
    }
    let a = enc_operand(x, nodes, emitted, slot_of);
    if op < OP_NEG {
        let b = enc_operand(y, nodes, emitted, slot_of);
        return Words { op, a, b };
    }
    Words { op, a, b: 0 }
}

// Writes node k's four words.
pub fn put(out: &mut [u32], k: usize, w: Words, res: u32)
    requires { 4 * k + 4 ≤ length out.old }
    ensures { out.new ≡ sets out.old (4 * k) (w.op ∷ w.a ∷ w.b ∷ res ∷ []) }
{
    let first = 4 * k;
    out[first..first + 4].copy_from_slice(&[w.op, w.a, w.b, res]);
}
