// The panel's scalars.
ghost use Rattle.std.specs.Prelude.{◌≡◌, ◌<◌};
ghost use Rattle.state.specs.Parts.{panel_put, pen_put};
ghost use Rattle.state.specs.Bank.{maybe_in, panel_in};
ghost use Rattle.state.specs.Packed.{maybe_number, panel_cells, pen_cells, laid_at, CellsPut};

use crate::Cells;
use crate::numbers::{byte, half};
use crate::places::{ARG0, ARG1, ARG2, ARG3, ARGS, FRAMES, HALF, ORDER, X, X0, X1, Y, Y0, Y1};
use panel::{Panel, Pen, Window};

fn maybe_of(n: u64) -> Option<u8>
    ensures { result ≡ maybe_in n }
{
    if n < 256 {
        return Some(n as u8);
    }
    None
}

fn maybe_number(maybe: Option<u8>) -> u64
    ensures { (result ≡ maybe_number maybe) × (maybe_in result ≡ maybe) }
{
    match maybe {
        None => 256,
        Some(b) => b as u64,
    }
}

pub fn order_of(cells: &Cells) -> Option<u8>
    ensures { result ≡ (panel_in cells.now).cmd }
{
    maybe_of(cells[ORDER])
}

pub fn window_of(cells: &Cells) -> Window
    ensures { result ≡ (panel_in cells.now).window }
{
    Window {
        x0: half(cells[X0]),
        x1: half(cells[X1]),
        y0: half(cells[Y0]),
        y1: half(cells[Y1]),
    }
}

pub fn pen_of(cells: &Cells) -> Pen
    ensures { result ≡ (panel_in cells.now).pen }
{
    let half_byte = maybe_of(cells[HALF]);
    Pen {
        x: half(cells[X]),
        y: half(cells[Y]),
        half: half_byte,
        frames: cells[FRAMES],
    }
}

pub fn panel_of(cells: &Cells) -> Panel
    ensures { result ≡ panel_in cells.now }
{
    let cmd = order_of(cells);
    let args = [
        byte(cells[ARG0]),
        byte(cells[ARG1]),
        byte(cells[ARG2]),
        byte(cells[ARG3]),
    ];
    let window = window_of(cells);
    let pen = pen_of(cells);
    Panel {
        cmd,
        args,
        count: byte(cells[ARGS]),
        window,
        pen,
    }
}

// The pen alone, which is all that a byte of a pixel changes.
pub fn put_pen(cells: &mut Cells, pen: Pen)
    ensures { CellsPut cells.old cells.new
        (laid_at cells.old 21 (pen_cells pen)) (λ x. pen_put x pen) }
{
    let half_byte = pen.half;
    cells[X] = pen.x as u64;
    cells[Y] = pen.y as u64;
    cells[HALF] = maybe_number(half_byte);
    cells[FRAMES] = pen.frames;
}

pub fn put_panel(cells: &mut Cells, panel: Panel)
    ensures { CellsPut cells.old cells.new
        (laid_at cells.old 11 (panel_cells panel)) (λ x. panel_put x panel) }
{
    let cmd = panel.cmd;
    let args = panel.args;
    let window = panel.window;
    cells[ORDER] = maybe_number(cmd);
    cells[ARG0] = u64::from(args[0]);
    cells[ARG1] = u64::from(args[1]);
    cells[ARG2] = u64::from(args[2]);
    cells[ARG3] = u64::from(args[3]);
    cells[ARGS] = panel.count as u64;
    cells[X0] = window.x0 as u64;
    cells[X1] = window.x1 as u64;
    cells[Y0] = window.y0 as u64;
    cells[Y1] = window.y1 as u64;
    put_pen(cells, panel.pen);
}

pub fn frames_of(cells: &Cells) -> u64
    ensures { result ≡ (panel_in cells.now).pen.frames }
{
    cells[FRAMES]
}
