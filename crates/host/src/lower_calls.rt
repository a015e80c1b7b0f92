// Lowering as a call, on numbers and word slices. An answer is one u64: the number of document 01's table, and 256 times the
// place that it names.
ghost use Rattle.std.specs.Prelude.{◌≡◌};
ghost use Rattle.lower_parts.specs.Answer.{LowerAnswer, said_of_lowering};
ghost use Rattle.host_answer.specs.Answer.{answer_of, value_on_done};
ghost use Rattle.host_answer.specs.Numbers.{counts};
ghost use Rattle.host.specs.LowerCalls.{CalledLower};

use blob_rules::blob::{BlobCounts, TableRooms};
use host_answer::answer::coded_refusal;
use host_answer::numbers::counts_of;
use ir::program::ProgramRef;
use ir::refusal::Refusal;
use lower::lower::lower;
use lower_parts::parts::Lists;

// Apart, so that the call that lends so much memory has one end.
fn coded_lowering(
    told: Result<BlobCounts, Refusal>,
    count: &mut u32,
    bs: &mut u32,
    xs: &mut u32,
) -> u64
    ensures value { result ≡ answer_of (said_of_lowering told) }
    ensures count_after { count.new ≡ value_on_done (said_of_lowering told) 0 count.old }
    ensures bs_after { bs.new ≡ value_on_done (said_of_lowering told) 5 bs.old }
    ensures xs_after { xs.new ≡ value_on_done (said_of_lowering told) 6 xs.old }
{
    match told {
        Ok(k) => {
            *count = k.nodes;
            *bs = k.base_slots;
            *xs = k.ext_slots;
            0
        }
        Err(why) => coded_refusal(why),
    }
}

// The blob's nodes and its slots of each class are written on 0 alone; its other counts are the program's.
#[unsafe(no_mangle)]
pub extern "C" fn cir_lower(
    n: usize,
    b: usize,
    x: usize,
    r: usize,
    leading: usize,
    nodes: &[u32],
    bases: &[u64],
    exts: &[u64],
    roots: &[u32],
    used: &mut [u32],
    last: &mut [u32],
    root: &mut [u32],
    slot: &mut [u32],
    free: &mut [u32],
    blob: &mut [u32],
    narrow: &mut [u64],
    wide: &mut [u64],
    ends: &mut [u32],
    count: &mut u32,
    bs: &mut u32,
    xs: &mut u32,
) -> u64
    ensures { CalledLower (λ o. LowerAnswer (record { counts = counts n b x r leading; nodes = nodes.now; bases = bases.now; exts = exts.now; roots = roots.now }) (record { used = used.old; last = last.old; root = root.old; slot = slot.old; free = free.old }) (record { nodes = blob.old; bases = narrow.old; exts = wide.old; roots = ends.old }) o (record { used = used.new; last = last.new; root = root.new; slot = slot.new; free = free.new }) (record { nodes = blob.new; bases = narrow.new; exts = wide.new; roots = ends.new })) result count.old count.new bs.old bs.new xs.old xs.new }
{
    let program = ProgramRef {
        counts: counts_of(n, b, x, r, leading),
        nodes,
        bases,
        exts,
        roots,
    };
    let mut lists = Lists {
        used,
        last_use: last,
        is_root: root,
        slot_of: slot,
        free,
    };
    let mut out = TableRooms {
        nodes: blob,
        bases: narrow,
        exts: wide,
        roots: ends,
    };
    let told = lower(&program, &mut lists, &mut out);
    coded_lowering(told, count, bs, xs)
}
