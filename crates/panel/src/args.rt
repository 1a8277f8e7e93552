// Arguments: the data bytes after any command but 0x2C.
ghost use Rattle.std.specs.Prelude.{◌≡◌};
ghost use Rattle.panel.specs.Lcd.{code_of, aimed, argued};

use crate::{Panel, Window};

// Such a byte as a number: 256 where there is none.
pub fn code(h: Option<u8>) -> u16
    ensures { result ≡ code_of h }
{
    match h {
        None => 256,
        Some(b) => b as u16,
    }
}

// The window after the four bytes of a command: 0x2A sets its columns, 0x2B its rows.
fn aim(w: Window, c: u16, lo: u16, hi: u16) -> Window
    ensures { result ≡ aimed w c lo hi }
{
    if c == 0x2A {
        return Window {
            x0: lo,
            x1: hi,
            ..w
        };
    }
    if c == 0x2B {
        return Window {
            y0: lo,
            y1: hi,
            ..w
        };
    }
    w
}

// The first four are kept, and the fourth acts.
pub fn argument(p: Panel, b: u8) -> Panel
    ensures { result ≡ argued p b }
{
    let n = p.count;
    if n < 4 {
        let mut args = p.args;
        args[n as usize] = b;
        let mut next = Panel {
            args,
            count: n + 1,
            ..p
        };
        if n == 3 {
            let lo = u16::from_be_bytes([args[0], args[1]]);
            let hi = u16::from_be_bytes([args[2], args[3]]);
            let cmd = p.cmd;
            let window = aim(p.window, code(cmd), lo, hi);
            next.window = window;
        }
        return next;
    }
    p
}
