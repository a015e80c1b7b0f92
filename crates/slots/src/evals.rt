// The roots' values, written below p where a caller reads them.
ghost use Rattle.std.specs.Prelude.{◌≡◌, ◌≤◌, length};
ghost use Rattle.blob_rules.specs.Blob.{lent_blob};
ghost use Rattle.slots.specs.Slots.{slot_words};
ghost use Rattle.slots.specs.Steps.{RootLegal, RootReads, RootPlace, RootWritten, RootsReady, RootsWritten};

use blob_rules::blob::{BlobCounts, BlobRef, is_ext, slot_of};
use extension::extensions_goldilocks::Ext;

// A root's value as an extension value.
fn root_value(c: BlobCounts, w: u32, slots: &[u64]) -> Ext
    requires { RootLegal c w × (slot_words c ≤ length slots.now) }
    ensures { RootReads c slots.now w result.limbs }
{
    let k = slot_of(w) as usize;
    if is_ext(w) {
        Ext::load(slots, c.base_slots as usize + 3 * k).reduce()
    } else {
        Ext::embed(slots[k])
    }
}

// Root i below num_base goes to base_evals, every other to ext_evals at its own number.
fn write_root(
    c: BlobCounts,
    i: usize,
    leading: usize,
    w: u32,
    slots: &[u64],
    bases: &mut [u64],
    exts: &mut [u64],
)
    requires { RootLegal c w × (slot_words c ≤ length slots.now) × RootPlace i leading (length bases.old) (length exts.old) }
    ensures { RootWritten c i leading slots.now w bases.old bases.new exts.old exts.new }
{
    let v = root_value(c, w, slots);
    if i < leading {
        bases[i] = v.limbs[0];
    } else {
        v.store(exts, 3 * i);
    }
}

// The one for a room of values reads four words each and shares the loop alone.
pub fn write_roots(blob: &BlobRef, slots: &[u64], bases: &mut [u64], exts: &mut [u64])
    requires { RootsReady (lent_blob blob.now) (length bases.old) (length exts.old) × (slot_words blob.now.counts ≤ length slots.now) }
    ensures { RootsWritten (lent_blob blob.now) blob.now.counts.roots slots.now bases.old bases.new exts.old exts.new }
{
    let c = blob.counts;
    let count = c.roots as usize;
    let leading = c.num_base as usize;
    for i in 0..count {
        let w = blob.roots[i];
        write_root(c, i, leading, w, slots, bases, exts);
    }
}
