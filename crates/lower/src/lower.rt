// Lowering: the words of a program become those of a blob. After device.rs, `DeviceProgram::lower`.
ghost use Rattle.std.specs.Prelude.{◌≡◌};
ghost use Rattle.liveness.specs.LiveLists.{LiveOk, Alive};
ghost use Rattle.ir.specs.Program.{program_of};
ghost use Rattle.blob_rules.specs.Blob.{SameRooms};
ghost use Rattle.lower_parts.specs.Inner.{SameLists, ListsLong, front, LowerOk, WordsAnswer};
ghost use Rattle.lower_parts.specs.Answer.{lists_of, output_of, LowerAnswer};

use blob_rules::blob::{BlobCounts, TableRooms};
use ir::program::{ProgramRef, ill_formed, short_tables, too_many_nodes, too_many_roots};
use ir::refusal::Refusal;
use liveness::liveness::{Marks, MarksRef, mark_live};
use lower_parts::parts::{Lists, counts_of, short_output, write_blob};

// The liveness pass over the lists that it fills.
fn mark_lists(p: &ProgramRef, lists: &mut Lists) -> usize
    requires { LiveOk p.now.counts p.now.nodes.now p.now.roots.now lists.old.used.now lists.old.last_use.now lists.old.is_root.now }
    ensures alive { Alive p.now.counts p.now.nodes.now p.now.roots.now lists.new.used.now lists.new.last_use.now lists.new.is_root.now result }
    ensures slots_unchanged { (lists.new.slot_of.now ≡ lists.old.slot_of.now) × (lists.new.free.now ≡ lists.old.free.now) }
    ensures same_lists { SameLists lists.new lists.old }
{
    let mut marks = Marks {
        used: &mut *lists.used,
        last_use: &mut *lists.last_use,
        is_root: &mut *lists.is_root,
    };
    mark_live(p, &mut marks)
}

// A program that passed every test but 10, over lists that are as long as it needs. Five slices, since a check does not tell
// what a value made of parts of slices leaves in them.
fn lower_words<'a>(
    p: &ProgramRef,
    used: &'a mut [u32],
    last_use: &'a mut [u32],
    is_root: &'a mut [u32],
    slot_of: &'a mut [u32],
    free: &'a mut [u32],
    out: &mut TableRooms,
) -> Result<BlobCounts, Refusal>
    requires { LowerOk (program_of p.now) (record { used = used.old; last = last_use.old; root = is_root.old; slot = slot_of.old; free = free.old }) }
    ensures answer { WordsAnswer (program_of p.now) (record { used = used.old; last = last_use.old; root = is_root.old; slot = slot_of.old; free = free.old }) (output_of out.old) result (record { used = used.new; last = last_use.new; root = is_root.new; slot = slot_of.new; free = free.new }) (output_of out.new) }
    ensures same_rooms { SameRooms out.new out.old }
{
    let c = p.counts;
    let mut lists = Lists {
        used: &mut *used,
        last_use: &mut *last_use,
        is_root: &mut *is_root,
        slot_of: &mut *slot_of,
        free: &mut *free,
    };
    lists.clear(c.nodes);
    let count = mark_lists(p, &mut lists);
    if short_output(c, count, out) {
        lists.clear(c.nodes);
        return Err(Refusal::ShortOutput);
    }
    let marks = MarksRef {
        used: &*used,
        last_use: &*last_use,
        is_root: &*is_root,
    };
    let place = write_blob(p, count, &marks, &mut *slot_of, &mut *free, out);
    let mut lists = Lists {
        used,
        last_use,
        is_root,
        slot_of,
        free,
    };
    lists.clear(c.nodes);
    Ok(counts_of(c, place))
}

// The same over the front of each list, as long as the program needs: parts of the fields of one `&mut` value would be lent twice.
fn lower_fronts<'a>(
    p: &ProgramRef,
    used: &'a mut [u32],
    last_use: &'a mut [u32],
    is_root: &'a mut [u32],
    slot_of: &'a mut [u32],
    free: &'a mut [u32],
    out: &mut TableRooms,
) -> Result<BlobCounts, Refusal>
    requires { LowerOk (program_of p.now) (front p.now.counts.nodes (record { used = used.old; last = last_use.old; root = is_root.old; slot = slot_of.old; free = free.old })) × ListsLong p.now.counts.nodes (record { used = used.old; last = last_use.old; root = is_root.old; slot = slot_of.old; free = free.old }) }
    ensures answer { WordsAnswer (program_of p.now) (record { used = used.old; last = last_use.old; root = is_root.old; slot = slot_of.old; free = free.old }) (output_of out.old) result (record { used = used.new; last = last_use.new; root = is_root.new; slot = slot_of.new; free = free.new }) (output_of out.new) }
    ensures same_rooms { SameRooms out.new out.old }
{
    let n = p.counts.nodes;
    lower_words(
        p,
        &mut used[..n],
        &mut last_use[..n],
        &mut is_root[..n],
        &mut slot_of[..n],
        &mut free[..2 * n],
        out,
    )
}

// Lowers a program: 8, 9, 1, 7, 10. The lists are four of a word a node and one of two.
pub fn lower(p: &ProgramRef, lists: &mut Lists, out: &mut TableRooms) -> Result<BlobCounts, Refusal>
    ensures answer { LowerAnswer (program_of p.now) (lists_of lists.old) (output_of out.old) result (lists_of lists.new) (output_of out.new) }
    ensures same_lists { SameLists lists.new lists.old }
    ensures same_rooms { SameRooms out.new out.old }
{
    let c = p.counts;
    if too_many_nodes(c) {
        return Err(Refusal::TooManyNodes);
    }
    if too_many_roots(c) {
        return Err(Refusal::TooManyRoots);
    }
    if short_tables(c, p.nodes.len(), p.bases.len(), p.exts.len(), p.roots.len()) {
        return Err(Refusal::ShortMemory);
    }
    if lists.are_short(c.nodes) {
        return Err(Refusal::ShortMemory);
    }
    if let Some(place) = ill_formed(c, p.nodes, p.roots) {
        return Err(Refusal::IllFormed { place });
    }
    lower_fronts(
        p,
        lists.used,
        lists.last_use,
        lists.is_root,
        lists.slot_of,
        lists.free,
        out,
    )
}
