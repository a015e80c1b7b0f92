// Check, lowering and walk as calls on numbers and byte slices. An answer is one u64: the number of document 01's table, and
// 256 times the place that it names. Word rooms are lent beside the bytes.
ghost use Rattle.std.specs.Prelude.{[], ◌∷◌, ◌≡◌};
ghost use Rattle.bytewise.specs.Checking.{CheckStored};
ghost use Rattle.bytewise.specs.Lowering.{LowerStored};
ghost use Rattle.byte_walk.specs.Walking.{WalkStored};
ghost use Rattle.stored.specs.Answer.{said_of_stored};
ghost use Rattle.host_answer.specs.Answer.{answer_of, value_on_done};
ghost use Rattle.host_answer.specs.Called.{Called};
ghost use Rattle.host_answer.specs.Numbers.{counts, shape};
ghost use Rattle.host_bytes.specs.ByteCalls.{CalledStored};

use blob_rules::blob::TableRooms;
use byte_walk::walking::{FrameBytes, walk_stored};
use bytewise::checking::check_stored;
use bytewise::lowering::{TableBytes, lower_stored};
use host_answer::answer::{coded_outcome, coded_refusal, ext_of};
use host_answer::numbers::{counts_of, shape_of};
use ir::refusal::Refusal;
use lower_parts::parts::Lists;

#[unsafe(no_mangle)]
pub extern "C" fn cir_check_stored(
    steps: usize,
    width: usize,
    auxes: usize,
    rap: usize,
    powers: usize,
    file: &[u8],
    nodes: &mut [u32],
    bases: &mut [u64],
    exts: &mut [u64],
    roots: &mut [u32],
    marks: &mut [u8],
) -> u64
    ensures { Called (λ o. CheckStored (shape steps width auxes rap powers) file.now (record { nodes = nodes.old; bases = bases.old; exts = exts.old; roots = roots.old }) marks.old o (record { nodes = nodes.new; bases = bases.new; exts = exts.new; roots = roots.new }) marks.new) result }
{
    let s = shape_of(steps, width, auxes, rap, powers);
    let mut rooms = TableRooms {
        nodes,
        bases,
        exts,
        roots,
    };
    coded_outcome(check_stored(s, file, &mut rooms, marks))
}

// Apart, so that the call that lends so much memory has one end. The file's length is written on 0 alone.
fn coded_stored(told: Result<usize, Refusal>, length: &mut u64) -> u64
    ensures value { result ≡ answer_of (said_of_stored told) }
    ensures length_after { length.new ≡ value_on_done (said_of_stored told) 0 length.old }
{
    match told {
        Ok(bytes) => {
            *length = bytes as u64;
            0
        }
        Err(why) => coded_refusal(why),
    }
}

// The rooms nw, bw, xw and tw take the words of nodes, base constants, extension constants and roots. The file's length is
// written on 0 alone.
#[unsafe(no_mangle)]
pub extern "C" fn cir_lower_stored(
    n: usize,
    b: usize,
    x: usize,
    r: usize,
    leading: usize,
    nodes: &[u8],
    bases: &[u8],
    exts: &[u8],
    roots: &[u8],
    nw: &mut [u32],
    bw: &mut [u64],
    xw: &mut [u64],
    tw: &mut [u32],
    used: &mut [u32],
    last: &mut [u32],
    root: &mut [u32],
    slot: &mut [u32],
    free: &mut [u32],
    blob: &mut [u32],
    narrow: &mut [u64],
    wide: &mut [u64],
    ends: &mut [u32],
    file: &mut [u8],
    length: &mut u64,
) -> u64
    ensures { CalledStored (λ o. LowerStored (counts n b x r leading) (record { nodes = nodes.now; bases = bases.now; exts = exts.now; roots = roots.now }) (record { nodes = nw.old; bases = bw.old; exts = xw.old; roots = tw.old }) (record { used = used.old; last = last.old; root = root.old; slot = slot.old; free = free.old }) (record { nodes = blob.old; bases = narrow.old; exts = wide.old; roots = ends.old }) file.old o (record { nodes = nw.new; bases = bw.new; exts = xw.new; roots = tw.new }) (record { used = used.new; last = last.new; root = root.new; slot = slot.new; free = free.new }) (record { nodes = blob.new; bases = narrow.new; exts = wide.new; roots = ends.new }) file.new) result length.old length.new }
{
    let c = counts_of(n, b, x, r, leading);
    let tables = TableBytes {
        nodes,
        bases,
        exts,
        roots,
    };
    let mut rooms = TableRooms {
        nodes: nw,
        bases: bw,
        exts: xw,
        roots: tw,
    };
    let mut lists = Lists {
        used,
        last_use: last,
        is_root: root,
        slot_of: slot,
        free,
    };
    let mut out = TableRooms {
        nodes: blob,
        bases: narrow,
        exts: wide,
        roots: ends,
    };
    let told = lower_stored(c, &tables, &mut rooms, &mut lists, &mut out, file);
    coded_stored(told, length)
}

// The rooms mw, aw, cw, pw, bw and xw take the words of main and aux cells, challenges, alpha powers and of base and
// extension evals.
#[unsafe(no_mangle)]
pub extern "C" fn cir_walk_stored(
    steps: usize,
    width: usize,
    auxes: usize,
    rap: usize,
    powers: usize,
    o0: u64,
    o1: u64,
    o2: u64,
    file: &[u8],
    main: &[u8],
    aux: &[u8],
    challenges: &[u8],
    alphas: &[u8],
    base: &mut [u8],
    ext: &mut [u8],
    nodes: &mut [u32],
    bases: &mut [u64],
    exts: &mut [u64],
    roots: &mut [u32],
    mw: &mut [u64],
    aw: &mut [u64],
    cw: &mut [u64],
    pw: &mut [u64],
    bw: &mut [u64],
    xw: &mut [u64],
    marks: &mut [u8],
    slots: &mut [u64],
) -> u64
    ensures { Called (λ o. WalkStored (shape steps width auxes rap powers) (o0 ∷ o1 ∷ o2 ∷ []) file.now (record { nodes = nodes.old; bases = bases.old; exts = exts.old; roots = roots.old }) (record { main = main.now; aux = aux.now; challenges = challenges.now; alphas = alphas.now }) (record { evals = record { base = base.old; ext = ext.old }; frame_rooms = record { main = mw.old; aux = aw.old; challenges = cw.old; alphas = pw.old }; eval_rooms = record { base = bw.old; ext = xw.old }; marks = marks.old; slots = slots.old }) o (record { nodes = nodes.new; bases = bases.new; exts = exts.new; roots = roots.new }) (record { evals = record { base = base.new; ext = ext.new }; frame_rooms = record { main = mw.new; aux = aw.new; challenges = cw.new; alphas = pw.new }; eval_rooms = record { base = bw.new; ext = xw.new }; marks = marks.new; slots = slots.new })) result }
{
    let frame = FrameBytes {
        main,
        aux,
        challenges,
        alphas,
    };
    coded_outcome(walk_stored(
        shape_of(steps, width, auxes, rap, powers),
        ext_of(o0, o1, o2),
        file,
        &frame,
        base,
        ext,
        nodes,
        bases,
        exts,
        roots,
        mw,
        aw,
        cw,
        pw,
        bw,
        xw,
        marks,
        slots,
    ))
}
