// Runs of the bank's words read, cells, each of its width, and floats; and the ranges of cells. One function for both
// runs would take the width of each and a closure, and be no plainer.
ghost use Rattle.std.specs.Prelude.{◌≡◌, ◌+◌, ◌*◌, ◌≤◌, ◌<◌, length};
ghost use Rattle.session.specs.Layout.{cells_long};
ghost use Rattle.session.specs.Read.{cells_read, floats_read};
ghost use Rattle.session.specs.Good.{in_ranges};

use crate::numbers::number;
use session::places::width;
use state::{Cells, Floats};

// The greatest number that a cell may hold.
const MOSTS: [u64; 51] = [
    0,
    1,
    1,
    0xFFFF_FFFF_FFFF_FFFF,
    255,
    255,
    255,
    255,
    255,
    0xFFFF_FFFF,
    1,
    256,
    255,
    255,
    255,
    255,
    4,
    65535,
    65535,
    65535,
    65535,
    65535,
    65535,
    256,
    0xFFFF_FFFF_FFFF_FFFF,
    0,
    0,
    0,
    0,
    0,
    0,
    1,
    1,
    1,
    1,
    1,
    1,
    0xFFFF_FFFF_FFFF_FFFF,
    86399,
    0xFFFF_FFFF_FFFF_FFFF,
    1,
    0xFFFF_FFFF_FFFF,
    255,
    1,
    0,
    0,
    0,
    1,
    1,
    1,
    255,
];

pub(crate) fn read_cells(s: &[u8], at: usize, cells: &mut Cells, from: usize, n: usize)
    requires { (at + cells_long from n ≤ length s.now) × (from + n ≤ 51) }
    ensures { cells.new ≡ cells_read s.now at cells.old from n }
{
    let mut next = at;
    for i in from..from + n {
        let w = width(i);
        cells[i] = number(s, next, w);
        next += w;
    }
}

pub(crate) fn read_floats(s: &[u8], at: usize, floats: &mut Floats, from: usize, n: usize)
    requires { (at + 8 * n ≤ length s.now) × (from + n ≤ 16) }
    ensures { floats.new ≡ floats_read s.now at floats.old from n }
{
    let mut next = at;
    for i in from..from + n {
        floats[i] = whole::limits::float_of(number(s, next, 8));
        next += 8;
    }
}

pub(crate) fn in_ranges(cells: &Cells) -> bool
    ensures { result ≡ in_ranges cells.now }
{
    cells
        .iter()
        .zip(MOSTS.iter())
        .all(|(cell, most)| cell <= most)
}
