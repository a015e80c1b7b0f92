// The blob check and the walk on a case, held to the line. What is lent for writing is the first part of longer rooms,
// and all of each room is held: what a call has to leave, lent or not, is as it was.
use super::blob_case::{BASE_EVALS, BYTES, Case, EXT_EVALS, SLOT_WORDS};
use blob_rules::blob::BlobCounts;
use device::check::check_blob;
use host_answer::answer::coded_outcome;
use ir::refusal::Refusal;
use sample::fault::Fault;
use sample::line::Line;
use sample::word::{Word, lent};
use walk::walk::walk;

// How many bytes a call clears: one a slot where it has looked at the nodes.
fn cleared(c: BlobCounts, answer: Result<(), Refusal>) -> usize {
    match answer {
        Ok(()) | Err(Refusal::IllegalBlob { .. } | Refusal::ExtensionRoot { .. }) => {
            c.base_slots as usize + c.ext_slots as usize
        }
        Err(_) => 0,
    }
}

// What a walk writes values of: nothing where it refuses.
#[derive(Clone, Copy)]
struct Amounts {
    leading: usize,
    roots: usize,
    slots: usize,
}

fn written(c: BlobCounts, answer: Result<(), Refusal>) -> Amounts {
    match answer {
        Ok(()) => Amounts {
            leading: c.num_base.min(c.roots) as usize,
            roots: c.roots as usize,
            slots: c.base_slots as usize + 3 * (c.ext_slots as usize),
        },
        Err(_) => Amounts {
            leading: 0,
            roots: 0,
            slots: 0,
        },
    }
}

fn hold_check(line: &mut Line, case: &Case) -> Result<(), Fault> {
    let mut marks = [u8::KEPT; BYTES];
    let answer = check_blob(
        &case.blob(),
        case.shape,
        lent(&mut marks, case.rooms.bytes)?,
    );
    line.hold(coded_outcome(answer))?;
    line.hold_cleared(&marks, cleared(case.counts, answer))
}

fn hold_walk(line: &mut Line, case: &Case) -> Result<(), Fault> {
    let mut base = [u64::KEPT; BASE_EVALS];
    let mut ext = [u64::KEPT; EXT_EVALS];
    let mut marks = [u8::KEPT; BYTES];
    let mut slots = [u64::KEPT; SLOT_WORDS];
    let answer = walk(
        &case.blob(),
        case.shape,
        &case.inputs(),
        lent(&mut base, case.rooms.base)?,
        lent(&mut ext, case.rooms.ext)?,
        lent(&mut marks, case.rooms.bytes)?,
        lent(&mut slots, case.rooms.slots)?,
    );
    let w = written(case.counts, answer);
    line.hold(coded_outcome(answer))?;
    line.hold_written(&base, 0..w.leading)?;
    line.hold_written(&ext, w.leading.saturating_mul(3)..w.roots.saturating_mul(3))?;
    line.hold_written(&slots, 0..w.slots)?;
    line.hold_cleared(&marks, cleared(case.counts, answer))
}

// Both, in the line's order.
pub fn hold_calls(line: &mut Line, case: &Case) -> Result<(), Fault> {
    hold_check(line, case)?;
    hold_walk(line, case)?;
    line.end()
}
