// A line of the sample that is a blob with a frame, and its tables. The head of rust/differential/src/blobs/sample.rs says
// what the numbers of a line are.
use blob_rules::blob::{BlobCounts, BlobRef};
use extension::extensions_goldilocks::Ext;
use ir::frame::Shape;
use sample::fault::Fault;
use sample::line::Line;
use sample::word::narrow;
use values::frame::Inputs;

// There is room for so many bytes, words of slots, and evals of each class.
pub const BYTES: usize = 64;

pub const SLOT_WORDS: usize = 128;

pub const BASE_EVALS: usize = 64;

pub const EXT_EVALS: usize = 192;

// What a line says of its blob and frame: parts of the line, and words made narrow beside it.
#[derive(Clone, Copy)]
pub struct Case<'l, 'w> {
    pub counts: BlobCounts,
    pub shape: Shape,
    pub offset: Ext,
    pub rooms: Rooms,
    pub nodes: &'w [u32],
    pub roots: &'w [u32],
    pub bases: &'l [u64],
    pub exts: &'l [u64],
    pub main: &'l [u64],
    pub aux: &'l [u64],
    pub challenges: &'l [u64],
    pub alphas: &'l [u64],
}

impl<'l, 'w> Case<'l, 'w> {
    pub fn blob(&self) -> BlobRef<'w> {
        BlobRef {
            counts: self.counts,
            nodes: self.nodes,
            roots: self.roots,
        }
    }

    pub fn inputs(&self) -> Inputs<'l> {
        Inputs {
            bases: self.bases,
            exts: self.exts,
            main: self.main,
            aux: self.aux,
            challenges: self.challenges,
            alphas: self.alphas,
            offset: self.offset,
        }
    }
}

// How many words of each are lent for writing.
#[derive(Clone, Copy)]
pub struct Rooms {
    pub bytes: usize,
    pub slots: usize,
    pub base: usize,
    pub ext: usize,
}

impl Rooms {
    // Whether this program has them.
    fn fit(&self) -> bool {
        self.bytes <= BYTES
            && self.slots <= SLOT_WORDS
            && self.base <= BASE_EVALS
            && self.ext <= EXT_EVALS
    }
}

// How many words the line has of each table, and how many are lent for writing, in the line's order.
#[derive(Clone, Copy)]
struct Lengths {
    nodes: usize,
    roots: usize,
    bytes: usize,
    bases: usize,
    exts: usize,
    main: usize,
    aux: usize,
    challenges: usize,
    alphas: usize,
    slots: usize,
    base: usize,
    ext: usize,
}

fn read_lengths(line: &mut Line) -> Lengths {
    Lengths {
        nodes: line.count(),
        roots: line.count(),
        bytes: line.count(),
        bases: line.count(),
        exts: line.count(),
        main: line.count(),
        aux: line.count(),
        challenges: line.count(),
        alphas: line.count(),
        slots: line.count(),
        base: line.count(),
        ext: line.count(),
    }
}

// The counts are seven words of 32 bits.
fn read_counts(line: &mut Line) -> Result<BlobCounts, Fault> {
    let mut room = [0u32; 7];
    narrow(line.table(7)?, &mut room)?;
    let [nodes, bases, exts, roots, num_base, base_slots, ext_slots] = room;
    Ok(BlobCounts {
        nodes,
        bases,
        exts,
        roots,
        num_base,
        base_slots,
        ext_slots,
    })
}

// Of a line past its kind. The tables are lent as long as the line says. The answers come after them.
pub fn read_case<'l, 'w>(
    line: &mut Line<'l>,
    nodes: &'w mut [u32],
    roots: &'w mut [u32],
) -> Result<Case<'l, 'w>, Fault> {
    let counts = read_counts(line)?;
    let shape = line.shape();
    let offset = line.ext();
    let lengths = read_lengths(line);
    let node_words = line.table(lengths.nodes)?;
    let root_words = line.table(lengths.roots)?;
    let bases = line.table(lengths.bases)?;
    let exts = line.table(lengths.exts)?;
    let main = line.table(lengths.main)?;
    let aux = line.table(lengths.aux)?;
    let challenges = line.table(lengths.challenges)?;
    let alphas = line.table(lengths.alphas)?;
    let rooms = Rooms {
        bytes: lengths.bytes,
        slots: lengths.slots,
        base: lengths.base,
        ext: lengths.ext,
    };
    if !rooms.fit() {
        return Err(Fault::NoRoom);
    }
    Ok(Case {
        counts,
        shape,
        offset,
        rooms,
        nodes: narrow(node_words, nodes)?,
        roots: narrow(root_words, roots)?,
        bases,
        exts,
        main,
        aux,
        challenges,
        alphas,
    })
}
