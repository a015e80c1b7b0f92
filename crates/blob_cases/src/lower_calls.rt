// Lowering of a case, held to the line. What is lent for writing is the first part of longer rooms, and all of each room
// is held: what the call has to leave, lent or not, is as it was.
use super::lower_case::Case;
use blob_rules::blob::{BlobCounts, TableRooms};
use host_answer::answer::coded_refusal;
use ir::program::{Counts, ProgramRef};
use ir::refusal::Refusal;
use lower::lower::lower;
use lower_parts::parts::Lists;
use sample::fault::Fault;
use sample::line::Line;
use sample::word::{Word, lent};

// There is room for so many words of each list but that of free slots, which has twice as many, and of the blob.
const LIST_WORDS: usize = 64;

const FREE_WORDS: usize = 128;

const NODE_WORDS: usize = 256;

const BASES: usize = 32;

const EXT_WORDS: usize = 96;

const ROOTS: usize = 64;

// The lists that a call borrows, and the tables of its blob.
#[derive(Drop)]
struct Written {
    used: [u32; LIST_WORDS],
    last_use: [u32; LIST_WORDS],
    is_root: [u32; LIST_WORDS],
    slot_of: [u32; LIST_WORDS],
    free: [u32; FREE_WORDS],
    nodes: [u32; NODE_WORDS],
    bases: [u64; BASES],
    exts: [u64; EXT_WORDS],
    roots: [u32; ROOTS],
}

impl Written {
    fn new() -> Written {
        Written {
            used: [u32::KEPT; LIST_WORDS],
            last_use: [u32::KEPT; LIST_WORDS],
            is_root: [u32::KEPT; LIST_WORDS],
            slot_of: [u32::KEPT; LIST_WORDS],
            free: [u32::KEPT; FREE_WORDS],
            nodes: [u32::KEPT; NODE_WORDS],
            bases: [u64::KEPT; BASES],
            exts: [u64::KEPT; EXT_WORDS],
            roots: [u32::KEPT; ROOTS],
        }
    }

    // The blob's counts that are its own, and its tables.
    fn hold_blob(&self, line: &mut Line, c: Counts, blob: BlobCounts) -> Result<(), Fault> {
        line.hold(u64::from(blob.nodes))?;
        line.hold(u64::from(blob.base_slots))?;
        line.hold(u64::from(blob.ext_slots))?;
        line.hold_written(&self.nodes, 0..4 * (blob.nodes as usize))?;
        line.hold_written(&self.bases, 0..c.bases)?;
        line.hold_written(&self.exts, 0..c.exts.saturating_mul(3))?;
        line.hold_written(&self.roots, 0..c.roots)
    }

    // No blob is written.
    fn hold_no_blob(&self, line: &Line) -> Result<(), Fault> {
        line.hold_kept(&self.nodes)?;
        line.hold_kept(&self.bases)?;
        line.hold_kept(&self.exts)?;
        line.hold_kept(&self.roots)
    }

    // The lists of so many nodes are 0.
    fn hold_lists(&self, line: &Line, n: usize) -> Result<(), Fault> {
        line.hold_cleared(&self.used, n)?;
        line.hold_cleared(&self.last_use, n)?;
        line.hold_cleared(&self.is_root, n)?;
        line.hold_cleared(&self.slot_of, n)?;
        line.hold_cleared(&self.free, n.saturating_mul(2))
    }
}

fn lower_case(case: &Case, written: &mut Written) -> Result<Result<BlobCounts, Refusal>, Fault> {
    let rooms = case.rooms;
    let program = ProgramRef {
        counts: case.counts,
        nodes: case.nodes,
        bases: case.bases,
        exts: case.exts,
        roots: case.roots,
    };
    let mut lists = Lists {
        used: lent(&mut written.used, rooms.used)?,
        last_use: lent(&mut written.last_use, rooms.last_use)?,
        is_root: lent(&mut written.is_root, rooms.is_root)?,
        slot_of: lent(&mut written.slot_of, rooms.slot_of)?,
        free: lent(&mut written.free, rooms.free)?,
    };
    let mut out = TableRooms {
        nodes: lent(&mut written.nodes, rooms.nodes)?,
        bases: lent(&mut written.bases, rooms.bases)?,
        exts: lent(&mut written.exts, rooms.exts)?,
        roots: lent(&mut written.roots, rooms.roots)?,
    };
    Ok(lower(&program, &mut lists, &mut out))
}

// How many nodes' words of a list a refusal leaves 0: all after 10, where the blob has no room, else none.
fn cleared(n: usize, why: Refusal) -> usize {
    match why {
        Refusal::ShortOutput => n,
        _ => 0,
    }
}

pub fn hold_lower(line: &mut Line, case: &Case) -> Result<(), Fault> {
    let mut written = Written::new();
    let n = case.counts.nodes;
    match lower_case(case, &mut written)? {
        Ok(blob) => {
            line.hold(0)?;
            written.hold_blob(line, case.counts, blob)?;
            written.hold_lists(line, n)?;
        }
        Err(why) => {
            line.hold(coded_refusal(why))?;
            written.hold_no_blob(line)?;
            written.hold_lists(line, cleared(n, why))?;
        }
    }
    line.end()
}
