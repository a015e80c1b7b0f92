// The walk over bytes: a blob in stored form A, frame and evals as little-endian words.
ghost use Rattle.std.specs.Prelude.{◌≡◌, ◌*◌, ◌≤◌, length};
ghost use Rattle.values.specs.Frame.{lent_in};
ghost use Rattle.blob_rules.specs.Blob.{lent_blob};
ghost use Rattle.byte_walk.specs.Walking.{frame_in, frame_words, put_frame, short_frame_rooms, short_eval_rooms, tight, FrameFits, EvalsFit, Packed, Walked, WalkBytes, WalkStored};

use blob_rules::blob::{BlobRef, TableRooms};
use byte_words::rooms::{is_tight, short_rooms};
use byte_words::words::unpack;
use extension::extensions_goldilocks::Ext;
use ir::frame::{Shape, over_shape};
use ir::refusal::Refusal;
use stored::read::read_stored;
use stored_parts::writing::write_words;
use values::frame::Inputs;
use walk::walk::walk;

// A frame's four tables, as bytes.
#[derive(Clone, Copy)]
pub struct FrameBytes<'a> {
    pub main: &'a [u8],
    pub aux: &'a [u8],
    pub challenges: &'a [u8],
    pub alphas: &'a [u8],
}

fn short_frame_rooms(frame: &FrameBytes, mw: &[u64], aw: &[u64], cw: &[u64], pw: &[u64]) -> bool
    ensures { result ≡ short_frame_rooms (frame_in frame.now) (record { main = mw.now; aux = aw.now; challenges = cw.now; alphas = pw.now }) }
{
    is_tight(frame.main, mw)
        || is_tight(frame.aux, aw)
        || is_tight(frame.challenges, cw)
        || is_tight(frame.alphas, pw)
}

fn short_eval_rooms(base: &[u8], ext: &[u8], bw: &[u64], xw: &[u64]) -> bool
    ensures { result ≡ short_eval_rooms (record { base = base.now; ext = ext.now }) (record { base = bw.now; ext = xw.now }) }
{
    short_rooms(base, bw, ext, xw)
}

fn unpack_frame(frame: &FrameBytes, mw: &mut [u64], aw: &mut [u64], cw: &mut [u64], pw: &mut [u64])
    requires { FrameFits (frame_in frame.now) (record { main = mw.old; aux = aw.old; challenges = cw.old; alphas = pw.old }) }
    ensures { record { main = mw.new; aux = aw.new; challenges = cw.new; alphas = pw.new } ≡ put_frame (frame_words (frame_in frame.now)) (record { main = mw.old; aux = aw.old; challenges = cw.old; alphas = pw.old }) }
{
    unpack(frame.main, mw);
    unpack(frame.aux, aw);
    unpack(frame.challenges, cw);
    unpack(frame.alphas, pw);
}

// Walks words, and packs the evals back on 0.
fn walk_words(
    blob: &BlobRef,
    s: Shape,
    inputs: &Inputs,
    base: &mut [u8],
    ext: &mut [u8],
    bw: &mut [u64],
    xw: &mut [u64],
    marks: &mut [u8],
    slots: &mut [u64],
) -> Result<(), Refusal>
    requires { (8 * length bw.old ≤ length base.old) × (8 * length xw.old ≤ length ext.old) }
    ensures { Packed (lent_blob blob.now) s (lent_in inputs.now) (record { base = base.old; ext = ext.old }) (record { base = bw.old; ext = xw.old }) marks.old slots.old result (record { base = base.new; ext = ext.new }) (record { base = bw.new; ext = xw.new }) marks.new slots.new }
{
    walk(blob, s, inputs, bw, xw, marks, slots)?;
    write_words(base, bw);
    write_words(ext, xw);
    Ok(())
}

// The evals' words go into the fronts of their rooms.
fn walk_evals(
    blob: &BlobRef,
    s: Shape,
    inputs: &Inputs,
    base: &mut [u8],
    ext: &mut [u8],
    bw: &mut [u64],
    xw: &mut [u64],
    marks: &mut [u8],
    slots: &mut [u64],
) -> Result<(), Refusal>
    requires { EvalsFit (record { base = base.old; ext = ext.old }) (record { base = bw.old; ext = xw.old }) }
    ensures { Walked (lent_blob blob.now) s (lent_in inputs.now) (record { base = base.old; ext = ext.old }) (record { base = bw.old; ext = xw.old }) marks.old slots.old result (record { base = base.new; ext = ext.new }) (record { base = bw.new; ext = xw.new }) marks.new slots.new }
{
    unpack(base, bw);
    unpack(ext, xw);
    let b = base.len() / 8;
    let x = ext.len() / 8;
    walk_words(
        blob,
        s,
        inputs,
        base,
        ext,
        &mut bw[..b],
        &mut xw[..x],
        marks,
        slots,
    )
}

// 2, then 1 where a room is too short for its bytes, then the walk's own.
fn walk_bytes(
    blob: &BlobRef,
    s: Shape,
    offset: Ext,
    bases: &[u64],
    exts: &[u64],
    frame: &FrameBytes,
    base: &mut [u8],
    ext: &mut [u8],
    mw: &mut [u64],
    aw: &mut [u64],
    cw: &mut [u64],
    pw: &mut [u64],
    bw: &mut [u64],
    xw: &mut [u64],
    marks: &mut [u8],
    slots: &mut [u64],
) -> Result<(), Refusal>
    ensures { WalkBytes (lent_blob blob.now) s (record { nodes = blob.now.nodes.now; bases = bases.now; exts = exts.now; roots = blob.now.roots.now }) offset.limbs (frame_in frame.now) (record { evals = record { base = base.old; ext = ext.old }; frame_rooms = record { main = mw.old; aux = aw.old; challenges = cw.old; alphas = pw.old }; eval_rooms = record { base = bw.old; ext = xw.old }; marks = marks.old; slots = slots.old }) result (record { evals = record { base = base.new; ext = ext.new }; frame_rooms = record { main = mw.new; aux = aw.new; challenges = cw.new; alphas = pw.new }; eval_rooms = record { base = bw.new; ext = xw.new }; marks = marks.new; slots = slots.new }) }
{
    if over_shape(s) {
        return Err(Refusal::OverLimit);
    }
    if short_frame_rooms(frame, mw, aw, cw, pw) || short_eval_rooms(base, ext, bw, xw) {
        return Err(Refusal::ShortMemory);
    }
    unpack_frame(frame, mw, aw, cw, pw);
    let inputs = Inputs {
        bases,
        exts,
        main: &mw[..frame.main.len() / 8],
        aux: &aw[..frame.aux.len() / 8],
        challenges: &cw[..frame.challenges.len() / 8],
        alphas: &pw[..frame.alphas.len() / 8],
        offset,
    };
    walk_evals(blob, s, &inputs, base, ext, bw, xw, marks, slots)
}

// 15 and 10, then 1 where a room is too short for its bytes, then the walk's own: 2, 1, 14, 11, 12. The evals change on 0
// alone.
pub fn walk_stored<'a>(
    s: Shape,
    offset: Ext,
    file: &[u8],
    frame: &FrameBytes,
    base: &mut [u8],
    ext: &mut [u8],
    nodes: &'a mut [u32],
    bases: &'a mut [u64],
    exts: &'a mut [u64],
    roots: &'a mut [u32],
    mw: &mut [u64],
    aw: &mut [u64],
    cw: &mut [u64],
    pw: &mut [u64],
    bw: &mut [u64],
    xw: &mut [u64],
    marks: &mut [u8],
    slots: &mut [u64],
) -> Result<(), Refusal>
    ensures { WalkStored s offset.limbs file.now (record { nodes = nodes.old; bases = bases.old; exts = exts.old; roots = roots.old }) (frame_in frame.now) (record { evals = record { base = base.old; ext = ext.old }; frame_rooms = record { main = mw.old; aux = aw.old; challenges = cw.old; alphas = pw.old }; eval_rooms = record { base = bw.old; ext = xw.old }; marks = marks.old; slots = slots.old }) result (record { nodes = nodes.new; bases = bases.new; exts = exts.new; roots = roots.new }) (record { evals = record { base = base.new; ext = ext.new }; frame_rooms = record { main = mw.new; aux = aw.new; challenges = cw.new; alphas = pw.new }; eval_rooms = record { base = bw.new; ext = xw.new }; marks = marks.new; slots = slots.new }) }
{
    let mut rooms = TableRooms {
        nodes,
        bases,
        exts,
        roots,
    };
    let counts = read_stored(file, &mut rooms)?;
    let blob = BlobRef {
        counts,
        nodes,
        roots,
    };
    walk_bytes(
        &blob, s, offset, bases, exts, frame, base, ext, mw, aw, cw, pw, bw, xw, marks, slots,
    )
}
