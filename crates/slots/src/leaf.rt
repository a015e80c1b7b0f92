// The value of a leaf: a table's entry, a cell or the table offset.
ghost use Rattle.std.specs.Prelude.{◌<◌};
ghost use Rattle.values.specs.Frame.{lent_in};
ghost use Rattle.blob_rules.specs.Blob.{instr_of};
ghost use Rattle.slots.specs.Steps.{LentLong, NodeLegal, LeafGives};

use super::cell::{Row, cell};
use blob_rules::blob::{BlobCounts, NodeWords};
use ir::frame::Shape;
use ir::node::{OP_ALPHA_POW, OP_CONST_BASE, OP_CONST_EXT, OP_RAP_CHALLENGE, OP_VAR};
use values::frame::Inputs;
use values::value::{Value, base_leaf, ext_leaf, offset_leaf};

pub fn leaf(c: BlobCounts, s: Shape, t: Row, w: NodeWords, inputs: &Inputs) -> Value
    requires { (w.op < 6) × NodeLegal c s (instr_of w) × LentLong c s t.rows t.row (lent_in inputs.now) }
    ensures { LeafGives c s t.rows t.row (lent_in inputs.now) (instr_of w) result.class result.limbs.limbs }
{
    match w.op {
        OP_CONST_BASE => base_leaf(inputs.bases[w.a as usize]),
        OP_CONST_EXT => ext_leaf(inputs.exts, w.a as usize),
        OP_VAR => cell(s, t, w.a, w.b, inputs),
        OP_RAP_CHALLENGE => ext_leaf(inputs.challenges, w.a as usize),
        OP_ALPHA_POW => ext_leaf(inputs.alphas, w.a as usize),
        _ => offset_leaf(inputs.offset),
    }
}
