// Cells of a trace, for one of its rows.
ghost use Rattle.std.specs.Prelude.{true, ◌≡◌, ◌+◌, ◌*◌, ◌%◌, ◌<◌, ◌≤◌};
ghost use Rattle.values.specs.Frame.{lent_in};
ghost use Rattle.blob_rules.specs.Check.{cell_ok};
ghost use Rattle.slots.specs.Trace.{row_at};
ghost use Rattle.slots.specs.Steps.{most_cells, TraceLong, CellGives};

use ir::frame::Shape;
use values::frame::Inputs;
use values::value::{Value, base_leaf, ext_leaf};

// A trace's rows, and the one that is walked.
#[derive(Clone, Copy)]
pub struct Row {
    pub rows: usize,
    pub row: usize,
}

// A row, counted around; the division is for the last rows of a trace alone.
fn around(row: usize, rows: usize) -> usize
    requires { 0 < rows }
    ensures { result ≡ row % rows }
{
    if row < rows { row } else { row % rows }
}

// The place of a cell among all cells of its trace.
fn cell_place(t: Row, step: usize, width: usize, col: usize) -> usize
    requires { (t.row < t.rows) × (step < 256) × (col < width) × (t.rows * width ≤ most_cells) }
    ensures { (result ≡ row_at t.rows t.row step * width + col) × (result < t.rows * width) }
{
    around(t.row + step, t.rows) * width + col
}

pub fn cell(s: Shape, t: Row, x: u32, y: u32, inputs: &Inputs) -> Value
    requires { (cell_ok s x y ≡ true) × TraceLong s t.rows t.row (lent_in inputs.now) }
    ensures { CellGives s t.rows t.row (lent_in inputs.now) x y result.class result.limbs.limbs }
{
    let step = (y / 256 % 256) as usize;
    let col = x as usize;
    if y / 65536 % 2 != 0 {
        base_leaf(inputs.main[cell_place(t, step, s.main, col)])
    } else {
        ext_leaf(inputs.aux, cell_place(t, step, s.aux, col))
    }
}
