// What an operand word names.
ghost use Rattle.std.specs.Prelude.{◌≡◌, ◌+◌, ◌*◌, ◌≤◌, length};
ghost use Rattle.values.specs.Frame.{lent_in};
ghost use Rattle.slots.specs.Slots.{slot_words};
ghost use Rattle.slots.specs.Steps.{BaseLegal, ExtLegal, ReadsBase, ReadsExt, UniformsLong};

use blob_rules::blob::{
    BlobCounts, OPK_ALPHA, OPK_BASE_CONST, OPK_BASE_SLOT, OPK_EXT_CONST, OPK_EXT_SLOT, OPK_RAP,
    kind_of, payload_of,
};
use extension::extensions_goldilocks::Ext;
use ir::frame::Shape;
use values::frame::Inputs;

// An operand of a base result: a base slot or a base constant.
pub fn load_base(c: BlobCounts, w: u32, bases: &[u64], slots: &[u64]) -> u64
    requires { (c.bases ≤ length bases.now) × (slot_words c ≤ length slots.now) × BaseLegal c w }
    ensures { ReadsBase c bases.now slots.now w result }
{
    let k = payload_of(w) as usize;
    match kind_of(w) {
        OPK_BASE_SLOT => slots[k],
        _ => bases[k],
    }
}

// An operand of an extension result: a base one is embedded.
pub fn load_ext(c: BlobCounts, s: Shape, w: u32, inputs: &Inputs, slots: &[u64]) -> Ext
    requires { UniformsLong c s (lent_in inputs.now) × (slot_words c ≤ length slots.now) × ExtLegal c s w }
    ensures { ReadsExt c s (lent_in inputs.now) slots.now w result.limbs }
{
    let k = payload_of(w) as usize;
    let base_slots = c.base_slots as usize;
    match kind_of(w) {
        OPK_BASE_SLOT => Ext::embed(slots[k]),
        OPK_EXT_SLOT => Ext::load(slots, base_slots + 3 * k),
        OPK_BASE_CONST => Ext::embed(inputs.bases[k]),
        OPK_EXT_CONST => Ext::load(inputs.exts, 3 * k),
        OPK_RAP => Ext::load(inputs.challenges, 3 * k),
        OPK_ALPHA => Ext::load(inputs.alphas, 3 * k),
        _ => inputs.offset,
    }
}
