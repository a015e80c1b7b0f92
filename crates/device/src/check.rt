// The blob check: node after node and root after root, with one byte a slot that says whether it was filled.
ghost use Rattle.std.specs.Prelude.{not, [], ◌≡◌, ◌+◌, ◌*◌, ◌<◌, ◌≤◌, length, get_or};
ghost use Rattle.laws.specs.Folds.{lowest};
ghost use Rattle.ir.specs.Refusals.{said_of_outcome, first, gives};
ghost use Rattle.blob_rules.specs.Blob.{lent_blob};
ghost use Rattle.blob_rules.specs.Check.{root_ok, filled_after, ext_root, slot_count, cleared, CheckAnswer};
ghost use Rattle.blob_rules.specs.Marks.{marked, Alike, NodesChecked, root_rows, Searched, LegalChecked};

use blob_rules::blob::{BlobCounts, BlobRef, is_ext};
use blob_rules::legal::{node_ok, root_ok, set_mark, short_check};
use ir::frame::{Shape, over_shape};
use ir::refusal::Refusal;

// The lowest node at fault. A slot counts as filled for the nodes after the one that fills it.
fn lowest_bad_node(c: BlobCounts, s: Shape, nodes: &[u32], marks: &mut [u8]) -> Option<usize>
    requires { (4 * c.nodes ≤ length nodes.now) × (slot_count c ≤ length marks.old) × Alike c (marked c marks.old) (filled_after nodes.now 0) }
    ensures { NodesChecked (record { counts = c; nodes = nodes.now; roots = [] }) s result marks.old marks.new }
{
    let n = c.nodes as usize;
    for i in 0..n {
        if !node_ok(c, s, nodes, marks, i) {
            return Some(i);
        }
        set_mark(c, marks, nodes[4 * i + 3]);
    }
    None
}

fn lowest_bad_root(c: BlobCounts, roots: &[u32], marks: &[u8]) -> Option<usize>
    requires { (c.roots ≤ length roots.now) × (slot_count c ≤ length marks.now) }
    ensures { result ≡ lowest (λ k. not (root_ok c (marked c marks.now) (get_or roots.now k 0))) c.roots }
{
    let count = c.roots as usize;
    for i in 0..count {
        if !root_ok(c, marks, roots[i]) {
            return Some(i);
        }
    }
    None
}

// The lowest root below num_base that is extension.
fn lowest_ext_root(c: BlobCounts, roots: &[u32]) -> Option<usize>
    requires { c.roots ≤ length roots.now }
    ensures { result ≡ ext_root c roots.now }
{
    let leading = c.num_base as usize;
    let count = c.roots as usize;
    for i in 0..count {
        if (i < leading) & is_ext(roots[i]) {
            return Some(i);
        }
    }
    None
}

// 11 by a root, then 12.
fn root_refusal(c: BlobCounts, roots: &[u32], marks: &[u8]) -> Result<(), Refusal>
    requires { (c.roots ≤ length roots.now) × (slot_count c ≤ length marks.now) }
    ensures { said_of_outcome result ≡ first (root_rows c (marked c marks.now) roots.now) (gives []) }
{
    match lowest_bad_root(c, roots, marks) {
        Some(place) => Err(Refusal::IllegalBlob { place }),
        None => match lowest_ext_root(c, roots) {
            Some(place) => Err(Refusal::ExtensionRoot { place }),
            None => Ok(()),
        },
    }
}

// 11, then 12, over bytes that mark nothing yet.
fn search(blob: &BlobRef, s: Shape, marks: &mut [u8]) -> Result<(), Refusal>
    requires { (4 * blob.now.counts.nodes ≤ length blob.now.nodes.now) × (blob.now.counts.roots ≤ length blob.now.roots.now) × (slot_count blob.now.counts ≤ length marks.old) × Alike blob.now.counts (marked blob.now.counts marks.old) (filled_after blob.now.nodes.now 0) }
    ensures { Searched (lent_blob blob.now) s result marks.old marks.new }
{
    let c = blob.counts;
    match lowest_bad_node(c, s, blob.nodes, marks) {
        Some(place) => Err(Refusal::IllegalBlob { place }),
        None => root_refusal(c, blob.roots, marks),
    }
}

// 11, then 12, over any bytes; all are 0 afterwards.
pub fn legal_refusal(blob: &BlobRef, s: Shape, marks: &mut [u8]) -> Result<(), Refusal>
    requires { (4 * blob.now.counts.nodes ≤ length blob.now.nodes.now) × (blob.now.counts.roots ≤ length blob.now.roots.now) × (slot_count blob.now.counts ≤ length marks.old) }
    ensures { LegalChecked (lent_blob blob.now) s result marks.old marks.new }
{
    let slots = blob.counts.base_slots as usize + blob.counts.ext_slots as usize;
    marks[..slots].fill(0);
    let found = search(blob, s, marks);
    marks[..slots].fill(0);
    found
}

// The blob check: 2, 1, 11, 12. It reads no constant, no cell and no uniform.
pub fn check_blob(blob: &BlobRef, s: Shape, marks: &mut [u8]) -> Result<(), Refusal>
    ensures { CheckAnswer (lent_blob blob.now) s result marks.old marks.new }
{
    if over_shape(s) {
        return Err(Refusal::OverLimit);
    }
    if short_check(blob.counts, blob.nodes.len(), blob.roots.len(), marks.len()) {
        return Err(Refusal::ShortMemory);
    }
    legal_refusal(blob, s, marks)
}
