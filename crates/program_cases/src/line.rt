// A line of the sample and its tables. The head of rust/differential/src/programs/sample.rs says what the numbers of a
// line are.
use extension::extensions_goldilocks::Ext;
use ir::frame::Shape;
use ir::program::Counts;
use sample::fault::Fault;
use sample::line::Line;
use sample::word::narrow;

// There is room for so many nodes, of four words each, and for so many constraints.
pub const NODES: usize = 64;

pub const NODE_WORDS: usize = 256;

pub const ROOTS: usize = 64;

pub const NONE: Counts = Counts {
    nodes: 0,
    bases: 0,
    exts: 0,
    roots: 0,
    num_base: 0,
};

// What a line says of its program and frame: parts of the line, and words made narrow beside it. The wide cells are the verifier's main cells.
#[derive(Clone, Copy)]
pub struct Case<'l, 'w> {
    pub counts: Counts,
    pub shape: Shape,
    pub offset: Ext,
    pub nodes: &'w [u32],
    pub bases: &'l [u64],
    pub exts: &'l [u64],
    pub roots: &'w [u32],
    pub main: &'l [u64],
    pub aux: &'l [u64],
    pub challenges: &'l [u64],
    pub alphas: &'l [u64],
    pub wide: &'l [u64],
}

fn read_counts(line: &mut Line) -> Counts {
    Counts {
        nodes: line.count(),
        bases: line.count(),
        exts: line.count(),
        roots: line.count(),
        num_base: line.count(),
    }
}

// The tables are exactly as long as the counts say. The answers come after them.
pub fn read_case<'l, 'w>(
    line: &mut Line<'l>,
    nodes: &'w mut [u32],
    roots: &'w mut [u32],
) -> Result<Case<'l, 'w>, Fault> {
    let _length = line.number();
    let counts = read_counts(line);
    let shape = line.shape();
    let offset = line.ext();
    let cells = shape.steps.saturating_mul(shape.main);
    let aux_cells = shape.steps.saturating_mul(shape.aux);
    let node_words = line.table(counts.nodes.saturating_mul(4))?;
    let bases = line.table(counts.bases)?;
    let exts = line.table(counts.exts.saturating_mul(3))?;
    let root_words = line.table(counts.roots)?;
    let main = line.table(cells)?;
    let aux = line.table(aux_cells.saturating_mul(3))?;
    let challenges = line.table(shape.challenges.saturating_mul(3))?;
    let alphas = line.table(shape.alphas.saturating_mul(3))?;
    let wide = line.table(cells.saturating_mul(3))?;
    Ok(Case {
        counts,
        shape,
        offset,
        nodes: narrow(node_words, nodes)?,
        bases,
        exts,
        roots: narrow(root_words, roots)?,
        main,
        aux,
        challenges,
        alphas,
        wide,
    })
}
