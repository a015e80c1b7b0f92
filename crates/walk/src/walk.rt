// The walk over a blob: it checks, clears the slots, and walks one row.
ghost use Rattle.std.specs.Prelude.{false, [], ◌≡◌, length};
ghost use Rattle.ir.specs.Shape.{over_shape};
ghost use Rattle.ir.specs.Refusals.{said_of_outcome, first, gives};
ghost use Rattle.values.specs.Frame.{lent_in};
ghost use Rattle.blob_rules.specs.Blob.{lent_blob};
ghost use Rattle.slots.specs.Slots.{slot_words};
ghost use Rattle.slots.specs.Steps.{RowReady, RowDone, FrameWalked};
ghost use Rattle.walk.specs.Walk.{frame_lengths, short_frame, short_evals, short_walk, memory_rows, WalkAnswer};

use super::row::walk_nodes;
use blob_rules::blob::{BlobCounts, BlobRef};
use blob_rules::legal::short_check;
use device::check::legal_refusal;
use evaluation::refuse::eval_rooms_short;
use ir::frame::{Shape, over_shape};
use ir::refusal::Refusal;
use slots::cell::Row;
use slots::evals::write_roots;
use values::frame::Inputs;

// The products are small once the shape is within its limits.
#[tactic(auto, unfolding(crate::specs::Walk::short_frame))]
fn short_frame(c: BlobCounts, s: Shape, inputs: &Inputs) -> bool
    requires { over_shape s ≡ false }
    ensures { result ≡ short_frame c s (frame_lengths (lent_in inputs.now)) }
{
    inputs.bases.len() < c.bases as usize
        || inputs.exts.len() < 3 * (c.exts as usize)
        || inputs.main.len() < s.steps * s.main
        || inputs.aux.len() < 3 * (s.steps * s.aux)
        || inputs.challenges.len() < 3 * s.challenges
        || inputs.alphas.len() < 3 * s.alphas
}

// How many words all slots are.
fn slot_words(c: BlobCounts) -> usize
    ensures { result ≡ slot_words c }
{
    c.base_slots as usize + 3 * (c.ext_slots as usize)
}

#[tactic(auto, unfolding(crate::specs::Walk::short_walk))]
fn short_walk(blob: &BlobRef, s: Shape, inputs: &Inputs, marks: usize, slots: usize) -> bool
    requires { over_shape s ≡ false }
    ensures { result ≡ short_walk blob.now.counts s (frame_lengths (lent_in inputs.now)) (length blob.now.nodes.now) (length blob.now.roots.now) marks slots }
{
    let c = blob.counts;
    short_check(c, blob.nodes.len(), blob.roots.len(), marks)
        || short_frame(c, s, inputs)
        || slots < slot_words(c)
}

// One row: every node, then the roots' values. It checks nothing and clears nothing.
fn walk_row(
    blob: &BlobRef,
    s: Shape,
    t: Row,
    inputs: &Inputs,
    base: &mut [u64],
    ext: &mut [u64],
    slots: &mut [u64],
)
    requires { RowReady (lent_blob blob.now) s t.rows t.row (lent_in inputs.now) (length base.old) (length ext.old) (length slots.old) }
    ensures { RowDone (lent_blob blob.now) s t.rows t.row (lent_in inputs.now) base.old base.new ext.old ext.new slots.old slots.new }
{
    walk_nodes(blob, s, t, inputs, slots);
    write_roots(blob, slots, base, ext);
}

// A frame is row 0 of as many rows as it has steps. Slots may hold anything beforehand.
fn walk_frame(
    blob: &BlobRef,
    s: Shape,
    inputs: &Inputs,
    base: &mut [u64],
    ext: &mut [u64],
    slots: &mut [u64],
)
    requires { RowReady (lent_blob blob.now) s s.steps 0 (lent_in inputs.now) (length base.old) (length ext.old) (length slots.old) }
    ensures { FrameWalked (lent_blob blob.now) s (lent_in inputs.now) base.old base.new ext.old ext.new slots.old slots.new }
{
    let n = slot_words(blob.counts);
    slots[..n].fill(0);
    let t = Row {
        rows: s.steps,
        row: 0,
    };
    walk_row(blob, s, t, inputs, base, ext, slots);
}

// 2, 1 and 14.
#[tactic(auto, unfolding(crate::specs::Walk::short_evals))]
fn memory_refusal(
    blob: &BlobRef,
    s: Shape,
    inputs: &Inputs,
    marks: usize,
    slots: usize,
    base: usize,
    ext: usize,
) -> Result<(), Refusal>
    ensures { said_of_outcome result ≡ first (memory_rows (lent_blob blob.now) s (lent_in inputs.now) marks slots base ext) (gives []) }
{
    if over_shape(s) {
        return Err(Refusal::OverLimit);
    }
    if short_walk(blob, s, inputs, marks, slots) {
        return Err(Refusal::ShortMemory);
    }
    let leading = blob.counts.num_base as usize;
    let count = blob.counts.roots as usize;
    if eval_rooms_short(leading, count, base, ext) {
        return Err(Refusal::ShortEvals);
    }
    Ok(())
}

// The walk over a blob: 2, 1, 14, 11 and 12, then each root's value where it belongs. The bytes and the slots that it
// borrows may hold anything on entry.
pub fn walk(
    blob: &BlobRef,
    s: Shape,
    inputs: &Inputs,
    base: &mut [u64],
    ext: &mut [u64],
    marks: &mut [u8],
    slots: &mut [u64],
) -> Result<(), Refusal>
    ensures { WalkAnswer (lent_blob blob.now) s (lent_in inputs.now) result base.old base.new ext.old ext.new marks.old marks.new slots.old slots.new }
{
    memory_refusal(
        blob,
        s,
        inputs,
        marks.len(),
        slots.len(),
        base.len(),
        ext.len(),
    )?;
    legal_refusal(blob, s, marks)?;
    walk_frame(blob, s, inputs, base, ext, slots);
    Ok(())
}
