// The scan over the nodes that gives each emitted node a slot and writes it, with slots used again. It touches no constant.
ghost use Rattle.std.specs.Prelude.{◌≡◌, ◌<◌, ◌+◌, length, get_or};
ghost use Rattle.scan_parts.specs.Pools.{SameScan, stack};
ghost use Rattle.scan.specs.Arrays.{ReleaseOk, Released, ClaimOk, Claimed, Ready, Advanced, Begins, Scanned};
ghost use Rattle.scan_parts.specs.Scan.{pick};

use blob_rules::blob::RES_EXT_BIT;
use ir::node::{OP_ADD, OP_NEG};
use liveness::liveness::MarksRef;
use scan_parts::pools::Scan;
use scan_parts::spelling::{Words, put, spell};

// The operands of node i give their slots back, the first before the second.
fn release(i: usize, nodes: &[u32], marks: &MarksRef, scan: &mut Scan)
    requires { (i < 536870912) × ReleaseOk i nodes.now marks.now.last_use.now marks.now.is_root.now scan.old.slot_of.now scan.old.free.now scan.old.tops scan.old.nexts }
    ensures released { Released i nodes.now marks.now.last_use.now marks.now.is_root.now scan.old.slot_of.now scan.old.free.now scan.old.tops scan.old.nexts scan.new.slot_of.now scan.new.free.now scan.new.tops }
    ensures nexts_value { scan.new.nexts ≡ scan.old.nexts }
    ensures words_unchanged { (scan.new.out.now ≡ scan.old.out.now) × (scan.new.count ≡ scan.old.count) }
    ensures same_lists { SameScan scan.new scan.old }
{
    let first = 4 * i;
    let op = nodes[first];
    if op < OP_ADD {
        return;
    }
    scan.give_back(i as u32, nodes[first + 1], nodes, marks);
    if op < OP_NEG {
        scan.give_back(i as u32, nodes[first + 2], nodes, marks);
    }
}

// Node i takes a slot of its class and is written.
fn claim(i: usize, class: u32, w: Words, scan: &mut Scan)
    requires { ClaimOk i class scan.old.slot_of.now scan.old.free.now scan.old.tops scan.old.nexts scan.old.out.now scan.old.count }
    ensures count_value { scan.new.count ≡ scan.old.count + 1 }
    ensures free_unchanged { scan.new.free.now ≡ scan.old.free.now }
    ensures claimed { Claimed i class w.op w.a w.b scan.old.slot_of.now scan.old.free.now scan.old.tops scan.old.nexts scan.old.out.now scan.old.count scan.new.slot_of.now scan.new.tops scan.new.nexts scan.new.out.now (pick (stack scan.old.free.now class (get_or scan.old.tops class 0)) (get_or scan.old.nexts class 0)) }
    ensures same_lists { SameScan scan.new scan.old }
{
    let slot = scan.take(class as usize);
    scan.slot_of[i] = slot + 1;
    put(scan.out, scan.count, w, class * RES_EXT_BIT + slot);
    scan.count += 1;
}

// Node i of the scan: its operands are encoded, then given back, then it takes its slot.
fn step(i: usize, nodes: &[u32], marks: &MarksRef, scan: &mut Scan)
    requires { Ready i nodes.now marks.now.used.now marks.now.last_use.now marks.now.is_root.now scan.old.slot_of.now scan.old.free.now scan.old.tops scan.old.nexts scan.old.out.now scan.old.count }
    ensures advanced { Advanced i nodes.now marks.now.used.now marks.now.last_use.now marks.now.is_root.now scan.old.slot_of.now scan.old.out.now scan.old.count scan.new.slot_of.now scan.new.free.now scan.new.tops scan.new.nexts scan.new.out.now scan.new.count }
    ensures same_lists { SameScan scan.new scan.old }
{
    if marks.used[i] == 0 {
        return;
    }
    let w = spell(i, nodes, marks.used, scan.slots());
    release(i, nodes, marks, scan);
    claim(i, nodes[4 * i + 3], w, scan);
}

// How many nodes are written, how many slots of each class there are, and how many of them are free.
#[derive(Clone, Copy)]
pub struct Progress {
    pub count: usize,
    pub nexts: [u32; 2],
    pub tops: [usize; 2],
}

// All nodes. The marks say which are emitted, when a slot may be given back, and which never is.
pub fn scan_nodes<'a>(
    nodes: &[u32],
    marks: &MarksRef,
    slot_of: &'a mut [u32],
    free: &'a mut [u32],
    out: &'a mut [u32],
) -> Progress
    requires { Begins nodes.now marks.now.used.now marks.now.last_use.now marks.now.is_root.now slot_of.old free.old out.old }
    ensures scanned { Scanned (length slot_of.old) nodes.now marks.now.used.now marks.now.last_use.now marks.now.is_root.now out.old slot_of.new free.new result.tops result.nexts out.new result.count }
    ensures slot_of_len_unchanged { length slot_of.new ≡ length slot_of.old }
{
    let n = slot_of.len();
    let mut scan = Scan {
        slot_of,
        free,
        tops: [0, 0],
        nexts: [0, 0],
        out,
        count: 0,
    };
    for i in 0..n {
        step(i, nodes, marks, &mut scan);
    }
    Progress {
        count: scan.count,
        nexts: scan.nexts,
        tops: scan.tops,
    }
}
