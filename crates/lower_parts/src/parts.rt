// The parts of lowering: lists cleared, rooms that are too short, constants, roots and nodes written.
ghost use Rattle.std.specs.Prelude.{◌||◌, ◌++◌, ltb, ◌≡◌, ◌*◌, ◌%◌, ◌≤◌, length, get_or, drop};
ghost use Rattle.laws.specs.Lists.{tabulate};
ghost use Rattle.field.specs.Base.{p};
ghost use Rattle.ir.specs.Program.{program_of};
ghost use Rattle.blob_rules.specs.Blob.{SameRooms};
ghost use Rattle.blob_rules.specs.Check.{cleared};
ghost use Rattle.lower_parts.specs.Lower.{root_word};
ghost use Rattle.lower_parts.specs.Inner.{SameLists, RootOk, RootsOk, WriteOk, BlobWritten, ListsLong, CountsOk};
ghost use Rattle.lower_parts.specs.Answer.{lists_of, output_of, lowering, short_lists, emptied};

use blob_rules::blob::{BlobCounts, RES_EXT_BIT, TableRooms};
use field::goldilocks::Fp;
use ir::program::{Counts, ProgramRef};
use liveness::liveness::MarksRef;
use scan::scan::{Progress, scan_nodes};

// The first n words become 0, and a longer list keeps the others.
fn clear(list: &mut [u32], n: usize)
    requires { n ≤ length list.old }
    ensures { list.new ≡ cleared n list.old }
{
    list[..n].fill(0);
}

// The words that lowering borrows: of each node whether it is used, who reads it last, whether it is a root, and its slot;
// and the free slots.
#[derive(Drop)]
pub struct Lists<'a> {
    pub used: &'a mut [u32],
    pub last_use: &'a mut [u32],
    pub is_root: &'a mut [u32],
    pub slot_of: &'a mut [u32],
    pub free: &'a mut [u32],
}

impl Lists<'_> {
    // All that lowering borrows for n nodes becomes 0.
    pub fn clear(&mut self, n: usize)
        requires { ListsLong n (lists_of self.old) }
        ensures emptied { lists_of self.new ≡ emptied n (lists_of self.old) }
        ensures same_lists { SameLists self.new self.old }
    {
        clear(self.used, n);
        clear(self.last_use, n);
        clear(self.is_root, n);
        clear(self.slot_of, n);
        clear(self.free, 2 * n);
    }

    // A list is shorter than n nodes need.
    #[tactic(auto, unfolding(crate::specs::Answer::short_lists))]
    pub fn are_short(&self, n: usize) -> bool
        requires { n ≤ 536870911 }
        ensures { result ≡ short_lists n (lists_of self.now) }
    {
        self.used.len() < n
            || self.last_use.len() < n
            || self.is_root.len() < n
            || self.slot_of.len() < n
            || self.free.len() < 2 * n
    }
}

// The blob's words have no room.
pub fn short_output(c: Counts, count: usize, out: &TableRooms) -> bool
    requires { (count ≤ 536870911) × (c.exts ≤ 536870911) }
    ensures { result ≡ (ltb (length out.now.nodes.now) (4 * count) || ltb (length out.now.bases.now) c.bases || ltb (length out.now.exts.now) (3 * c.exts) || ltb (length out.now.roots.now) c.roots) }
{
    out.nodes.len() < 4 * count
        || out.bases.len() < c.bases
        || out.exts.len() < 3 * c.exts
        || out.roots.len() < c.roots
}

// Constants are put below p. More may be lent than there are, on either side.
fn copy_constants(count: usize, from: &[u64], to: &mut [u64])
    requires { (count ≤ length from.now) × (count ≤ length to.old) }
    ensures { to.new ≡ tabulate count (λ k. get_or from.now k 0 % p) ++ drop count to.old }
{
    for k in 0..count {
        to[k] = Fp::reduce(from[k]);
    }
}

// A root: its slot, and bit 31 is its class.
fn root_word(j: u32, nodes: &[u32], slot_of: &[u32]) -> u32
    requires { RootOk j nodes.now slot_of.now }
    ensures { result ≡ root_word nodes.now (λ k. get_or slot_of.now k 0) j }
{
    let at = j as usize;
    nodes[4 * at + 3] * RES_EXT_BIT + (slot_of[at] - 1)
}

// The roots' words over those lent, which may be more.
fn write_roots(count: usize, nodes: &[u32], roots: &[u32], slot_of: &[u32], out: &mut [u32])
    requires { RootsOk count nodes.now roots.now slot_of.now × (count ≤ length out.old) }
    ensures { out.new ≡ tabulate count (λ r. root_word nodes.now (λ k. get_or slot_of.now k 0) (get_or roots.now r 0)) ++ drop count out.old }
{
    for r in 0..count {
        out[r] = root_word(roots[r], nodes, slot_of);
    }
}

// The nodes by the scan, the roots by their slots, the constants below p.
pub fn write_blob<'a>(
    p: &ProgramRef,
    count: usize,
    marks: &MarksRef,
    slot_of: &'a mut [u32],
    free: &'a mut [u32],
    out: &mut TableRooms,
) -> Progress
    requires { WriteOk p.now.counts p.now.nodes.now p.now.bases.now p.now.exts.now p.now.roots.now marks.now.used.now marks.now.last_use.now marks.now.is_root.now slot_of.old free.old count out.old.nodes.now out.old.bases.now out.old.exts.now out.old.roots.now }
    ensures blob_written { BlobWritten p.now.counts (lowering (program_of p.now)) (output_of out.old) (output_of out.new) result.count result.nexts }
    ensures lists_long { (length slot_of.new ≡ p.now.counts.nodes) × (length free.new ≡ 2 * p.now.counts.nodes) × (length result.nexts ≡ 2) }
    ensures same_rooms { SameRooms out.new out.old }
{
    let c = p.counts;
    let place = scan_nodes(p.nodes, marks, slot_of, free, out.nodes);
    write_roots(c.roots, p.nodes, p.roots, slot_of, out.roots);
    copy_constants(c.bases, p.bases, out.bases);
    copy_constants(3 * c.exts, p.exts, out.exts);
    place
}

// Constants' and roots' counts and num_base are carried over.
pub fn counts_of(c: Counts, place: Progress) -> BlobCounts
    requires { CountsOk c place.count place.nexts }
    ensures { result ≡ record { nodes = place.count; bases = c.bases; exts = c.exts; roots = c.roots; num_base = c.num_base; base_slots = get_or place.nexts 0 0; ext_slots = get_or place.nexts 1 0 } }
{
    BlobCounts {
        nodes: place.count as u32,
        bases: c.bases as u32,
        exts: c.exts as u32,
        roots: c.roots as u32,
        num_base: c.num_base as u32,
        base_slots: place.nexts[0],
        ext_slots: place.nexts[1],
    }
}
