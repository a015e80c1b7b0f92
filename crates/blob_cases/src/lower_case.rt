// A line of the sample that is a program to be lowered, and its tables. The head of
// rust/differential/src/lowering/sample.rs says what the numbers of a line are.
use ir::program::Counts;
use sample::fault::Fault;
use sample::line::Line;
use sample::word::narrow;

// What a line says of its program: parts of the line, and words made narrow beside it.
#[derive(Clone, Copy)]
pub struct Case<'l, 'w> {
    pub counts: Counts,
    pub nodes: &'w [u32],
    pub bases: &'l [u64],
    pub exts: &'l [u64],
    pub roots: &'w [u32],
    pub rooms: Rooms,
}

// How many words of each list are lent, and of each table for the blob.
#[derive(Clone, Copy)]
pub struct Rooms {
    pub used: usize,
    pub last_use: usize,
    pub is_root: usize,
    pub slot_of: usize,
    pub free: usize,
    pub nodes: usize,
    pub bases: usize,
    pub exts: usize,
    pub roots: usize,
}

fn read_counts(line: &mut Line) -> Counts {
    Counts {
        nodes: line.count(),
        bases: line.count(),
        exts: line.count(),
        roots: line.count(),
        num_base: line.count(),
    }
}

fn read_rooms(line: &mut Line) -> Rooms {
    Rooms {
        used: line.count(),
        last_use: line.count(),
        is_root: line.count(),
        slot_of: line.count(),
        free: line.count(),
        nodes: line.count(),
        bases: line.count(),
        exts: line.count(),
        roots: line.count(),
    }
}

// Of a line past its kind. The tables are lent as long as the line says. The answer comes after them.
pub fn read_case<'l, 'w>(
    line: &mut Line<'l>,
    nodes: &'w mut [u32],
    roots: &'w mut [u32],
) -> Result<Case<'l, 'w>, Fault> {
    let counts = read_counts(line);
    let node_count = line.count();
    let base_count = line.count();
    let ext_count = line.count();
    let root_count = line.count();
    let rooms = read_rooms(line);
    let node_words = line.table(node_count)?;
    let bases = line.table(base_count)?;
    let exts = line.table(ext_count)?;
    let root_words = line.table(root_count)?;
    Ok(Case {
        counts,
        nodes: narrow(node_words, nodes)?,
        bases,
        exts,
        roots: narrow(root_words, roots)?,
        rooms,
    })
}
