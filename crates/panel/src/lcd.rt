// Commands, data bytes and DMA, over a framebuffer of any length.
ghost use Rattle.std.specs.Prelude.{◌≡◌};
ghost use Rattle.panel.specs.Lcd.{commanded, fed, painted, frame_counted};
ghost use Rattle.panel.specs.Entries.{screen};

use crate::args::{argument, code};
use crate::draw::paint;
use crate::{Panel, Pen};

// No argument and no half pixel is left; 0x2C goes to the window's start.
pub fn command(p: Panel, c: u8) -> Panel
    ensures { result ≡ commanded p c }
{
    let window = p.window;
    let old = p.pen;
    let cmd = Some(c);
    let half = None;
    let mut pen = Pen {
        x: old.x,
        y: old.y,
        half,
        frames: old.frames,
    };
    if c == 0x2C {
        pen.x = window.x0;
        pen.y = window.y0;
    }
    Panel {
        cmd,
        args: [0, 0, 0, 0],
        count: 0,
        window,
        pen,
    }
}

pub fn data(p: Panel, fb: &mut [u8], b: u8) -> Panel
    ensures { screen result fb.new ≡ screen (fed p b) (painted p fb.old b) }
{
    let cmd = p.cmd;
    if code(cmd) == 0x2C {
        let pen = paint(p.window, p.pen, fb, b);
        return Panel { pen, ..p };
    }
    argument(p, b)
}

// A frame that came by DMA counts too.
pub fn count_frame(p: Panel) -> Panel
    ensures { result ≡ frame_counted p }
{
    let frames = p.pen.frames.wrapping_add(1);
    Panel {
        pen: Pen { frames, ..p.pen },
        ..p
    }
}
