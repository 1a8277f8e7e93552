// Runs of the bank's words written: cells, each of its width, and floats. One function for both would take the width of
// each and a closure, and be no plainer.
ghost use Rattle.std.specs.Prelude.{◌+◌, ◌≤◌, length};
ghost use Rattle.session.specs.Sections.{cell_bytes, float_bytes};
ghost use Rattle.saving.specs.Inner.{Laid};

use crate::numbers::{put, put_float};
use session::places::width;
use state::{Cells, Floats};

pub(crate) fn lay_cells(out: &mut [u8], at: usize, cells: &Cells, from: usize, n: usize) -> usize
    requires { (at + length (cell_bytes cells.now from n) ≤ length out.old) × (from + n ≤ 51) }
    ensures { Laid out.old out.new at result (cell_bytes cells.now from n) }
{
    let mut next = at;
    for i in from..from + n {
        next = put(out, next, width(i), cells[i]);
    }
    next
}

pub(crate) fn lay_floats(out: &mut [u8], at: usize, floats: &Floats, from: usize, n: usize) -> usize
    requires { (at + length (float_bytes floats.now from n) ≤ length out.old) × (from + n ≤ 16) }
    ensures { Laid out.old out.new at result (float_bytes floats.now from n) }
{
    let mut next = at;
    for float in &floats[from..from + n] {
        next = put_float(out, next, *float);
    }
    next
}
