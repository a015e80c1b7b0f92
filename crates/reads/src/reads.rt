// The trace columns that a program reads at a later row. The main columns come first and the aux columns after them, as
// in the verifier's frame.
ghost use Rattle.std.specs.Prelude.{cond, ◌||◌, ◌≡◌, ◌+◌, ◌*◌, ◌≤◌, leb, length};
ghost use Rattle.ir.specs.Words.{node_at};
ghost use Rattle.reads.specs.Reads.{reads_next, column_at, columns_read, ReadsAnswer};
ghost use Rattle.reads.specs.Marks.{marked_by, Marked, Listing};

use ir::node::{OP_VAR, Packed, Var, unpack_var};
use ir::program::{Counts, ill_formed, short_tables, too_many_nodes, too_many_roots};
use ir::refusal::Refusal;
use selection::places::list_places;

// The most columns of a main or an aux trace.
const MOST_COLUMNS: usize = 65536;

// A place in the map for each column of both.
const PLACES: usize = 2 * MOST_COLUMNS;

// An offset counts steps and a row counts within a step: either leaves the current row.
fn is_later(v: Var) -> bool
    ensures { result ≡ (leb 1 v.offset || leb 1 v.row) }
{
    1 <= v.offset || 1 <= v.row
}

// How many main columns there are.
#[derive(Clone, Copy)]
struct MainWidth {
    columns: usize,
    ghost few: { columns ≤ 65536 },
}

impl MainWidth {
    // Aux columns come after the main ones.
    fn column_in(self, v: Var) -> usize
        ensures { result ≡ cond v.main v.col (self.columns + v.col) }
    {
        let column = usize::from(v.col);
        if v.main {
            column
        } else {
            self.columns + column
        }
    }
}

// The column that node i reads at a later row, if it is a Var that does.
fn next_read(nodes: &[u32], i: usize, width: MainWidth) -> Option<usize>
    requires { 4 * i + 4 ≤ length nodes.now }
    ensures { result ≡ cond (reads_next (node_at nodes.now i)) (Some (column_at width.columns (node_at nodes.now i))) None }
{
    let at = 4 * i;
    if nodes[at] != OP_VAR {
        return None;
    }
    let v = unpack_var(Packed {
        a: nodes[at + 1],
        b: nodes[at + 2],
    });
    if is_later(v) {
        Some(width.column_in(v))
    } else {
        None
    }
}

// A column that is marked again stays as it is: repeats fall together.
fn mark_read(map: &mut [bool], nodes: &[u32], i: usize, width: MainWidth)
    requires { (width.columns + 65536 ≤ length map.old) × (4 * i + 4 ≤ length nodes.now) }
    ensures { map.new ≡ marked_by width.columns (node_at nodes.now i) map.old }
{
    if let Some(column) = next_read(nodes, i, width) {
        map[column] = true;
    }
}

// Lent words may be more than n nodes.
fn mark_reads(map: &mut [bool], nodes: &[u32], n: usize, width: MainWidth)
    requires { (width.columns + 65536 ≤ length map.old) × (4 * n ≤ length nodes.now) }
    ensures { Marked nodes.now n width.columns map.old map.new }
{
    for i in 0..n {
        mark_read(map, nodes, i, width);
    }
}

// A map of its own, so that time grows with nodes plus columns. It is walked upwards, so the columns ascend.
fn list_columns(
    nodes: &[u32],
    n: usize,
    width: MainWidth,
    out: &mut [u32],
) -> Result<usize, Refusal>
    requires { 4 * n ≤ length nodes.now }
    ensures { Listing (columns_read nodes.now n width.columns) out.old out.new result }
{
    let mut map = [false; PLACES];
    mark_reads(&mut map, nodes, n, width);
    let columns = &map[..width.columns + MOST_COLUMNS];
    list_places(columns, |read| read, |c| c as u32, out)
}

// The columns that some Var node reads at a later row, dead nodes included, ascending and with no repeats: 8, 9, 2, 1,
// 7, 10.
pub fn next_row_trace_reads(
    c: Counts,
    width: usize,
    nodes: &[u32],
    bases: &[u64],
    exts: &[u64],
    roots: &[u32],
    out: &mut [u32],
) -> Result<usize, Refusal>
    ensures { ReadsAnswer (record { counts = c; nodes = nodes.now; bases = bases.now; exts = exts.now; roots = roots.now }) width out.old out.new result }
{
    if too_many_nodes(c) {
        return Err(Refusal::TooManyNodes);
    }
    if too_many_roots(c) {
        return Err(Refusal::TooManyRoots);
    }
    if MOST_COLUMNS < width {
        return Err(Refusal::OverLimit);
    }
    if short_tables(c, nodes.len(), bases.len(), exts.len(), roots.len()) {
        return Err(Refusal::ShortMemory);
    }
    if let Some(place) = ill_formed(c, nodes, roots) {
        return Err(Refusal::IllFormed { place });
    }
    list_columns(nodes, c.nodes, MainWidth { columns: width }, out)
}
