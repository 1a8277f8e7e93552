// The pixels' colours, 8 bits each.
ghost use Rattle.std.specs.Prelude.{◌≡◌, ◌+◌, ◌*◌, ◌^◌, ◌<◌};
ghost use Rattle.panel.specs.Colour.{parted, colours_at, pixel_at, over, rgb_of};
ghost use Rattle.panel.specs.Inner.{triple};

use crate::Colours;
use crate::glass::{load, store};

// Five bits of red, six of green, five of blue.
fn parts(v: u16) -> Colours
    ensures { result ≡ parted v }
{
    let w = v as u32;
    Colours {
        r: (w / 2048 % 32 * 255 / 31) as u8,
        g: (w / 32 % 64 * 255 / 63) as u8,
        b: (w % 32 * 255 / 31) as u8,
    }
}

// The colours of pixel n; a byte that is not there counts as 0.
fn pixel(fb: &[u8], n: usize) -> Colours
    requires { n * 2 + 1 < 2 ^ 64 }
    ensures { result ≡ colours_at fb.now n }
{
    parts(u16::from_le_bytes([load(fb, n * 2), load(fb, n * 2 + 1)]))
}

// The colours of pixel k modulo 16,384.
pub fn at(fb: &[u8], k: u32) -> Colours
    ensures { result ≡ pixel_at fb.now k }
{
    pixel(fb, k as usize % map::PIXELS)
}

// The three bytes of a pixel.
fn lay(out: &mut [u8], i: usize, c: Colours)
    requires { i + 2 < 2 ^ 64 }
    ensures { out.new ≡ triple out.old i c }
{
    store(out, i, c.r);
    store(out, i + 1, c.g);
    store(out, i + 2, c.b);
}

// Every whole pixel, as far as `out` has room.
pub fn screen(fb: &[u8], out: &mut [u8])
    ensures { out.new ≡ over (rgb_of fb.now) out.old }
{
    let n = fb.len() / 2;
    for i in 0..n {
        lay(out, i * 3, pixel(fb, i));
    }
}
