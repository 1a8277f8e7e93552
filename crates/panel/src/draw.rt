// Pixel data: the bytes after 0x2C. The Rust's `pixel` is `place`, which stores it, and `next`, which moves on.
ghost use Rattle.std.specs.Prelude.{◌≡◌, None};
ghost use Rattle.panel.specs.Lcd.{pen_at, put, next_pen, penned, inked};
ghost use Rattle.panel.specs.Entries.{drawing};

use crate::glass::store;
use crate::{Pen, Window};

// The glass, as wide as positions are.
const LCD_W: u16 = map::LCD_W as u16;

const LCD_H: u16 = map::LCD_H as u16;

// A pixel, high byte h and low byte b, at x, y, where that lies on the glass. The low byte stands first.
fn place(fb: &mut [u8], x: u16, y: u16, h: u8, b: u8)
    ensures { fb.new ≡ put fb.old x y h b }
{
    if x < LCD_W {
        if y < LCD_H {
            let i = (y as usize * map::LCD_W + x as usize) * 2;
            store(fb, i, b);
            store(fb, i + 1, h);
        }
    }
}

// A pen with no half pixel.
fn pen_at(x: u16, y: u16, frames: u64) -> Pen
    ensures { result ≡ pen_at x y None frames }
{
    Pen {
        x,
        y,
        half: None,
        frames,
    }
}

// The writing position after a pixel: along the row, to the next row, or back to the first, which counts a frame.
pub fn next(w: Window, p: Pen) -> Pen
    ensures { result ≡ next_pen w p }
{
    let more = p.frames.wrapping_add(1);
    if p.x < w.x1 {
        return pen_at(p.x + 1, p.y, p.frames);
    }
    if p.y < w.y1 {
        return pen_at(w.x0, p.y + 1, p.frames);
    }
    pen_at(w.x0, w.y0, more)
}

// The first byte of a pixel is held, the second writes it.
pub fn paint(w: Window, p: Pen, fb: &mut [u8], b: u8) -> Pen
    ensures { drawing result fb.new ≡ drawing (penned w p b) (inked fb.old p b) }
{
    let half = p.half;
    match half {
        None => Pen {
            x: p.x,
            y: p.y,
            half: Some(b),
            frames: p.frames,
        },
        Some(h) => {
            let x = p.x;
            let y = p.y;
            place(fb, x, y, h, b);
            next(w, p)
        }
    }
}
