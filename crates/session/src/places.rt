// How long a session is, with n other words, k presses and e sound events, and each cell in it. specs/Layout.antt has
// the same.
ghost use Rattle.std.specs.Prelude.{◌≡◌, ◌≤◌};
ghost use Rattle.session.specs.Layout.{size_of, width_at};

// The memories with their lengths.
const MEMORIES: usize = map::RAM_SIZE
    + map::SRAM_SIZE
    + map::GPIO_SIZE
    + map::FRAMEBUFFER_SIZE
    + 16;

// A session with nothing in its tables.
pub const LEAST: usize = 1093 + MEMORIES;

pub fn size(n: u16, k: u8, e: u16) -> usize
    ensures { result ≡ size_of n k e }
{
    LEAST + 8 * usize::from(n) + 9 * usize::from(k) + 24 * usize::from(e)
}

// 0 where a cell is not saved: the flash's mode, the timers' counts, the ring and the number of presses.
const WIDTHS: [u8; 51] = [
    0, 1, 1, 8, 1, 1, 1, 1, 1, 4, 1, 4, 1, 1, 1, 1, 1, 4, 4, 4, 4, 4, 4, 4, 8, 0, 0, 0, 0, 0, 0, 1,
    1, 1, 1, 1, 1, 8, 4, 8, 1, 8, 4, 1, 0, 0, 0, 1, 1, 1, 1,
];

// How many bytes a cell takes; none past the last.
pub fn width(i: usize) -> usize
    ensures { (result ≡ width_at i) × (result ≤ 8) }
{
    if i < 51 {
        return usize::from(WIDTHS[i]);
    }
    0
}
