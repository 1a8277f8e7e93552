// `flash.buf`: a transaction's first bytes, its position and the page's running AND.
ghost use Rattle.std.specs.Prelude.{◌≡◌, ◌+◌, ◌<◌, ◌≤◌, nat_le};
ghost use Rattle.map.specs.Numbers.{FLASH_SIZE};
ghost use Rattle.flash.specs.Pick.{either};
ghost use Rattle.flash.specs.Buf.{fresh, blank, next_pos, gathered, pushed, addr_of};

use crate::Trans;
use whole::forms::choose;

pub(crate) fn start() -> Trans
    ensures { result ≡ fresh }
{
    Trans {
        cmd: 0,
        a1: 0,
        a2: 0,
        a3: 0,
        pos: 0,
        long: false,
    }
}

// The running AND over no byte.
pub(crate) fn clear(page: &mut [u8; 256])
    ensures { page.new ≡ blank }
{
    *page = [0xFF; 256];
}

fn next(pos: usize, n: usize) -> usize
    requires { n ≤ FLASH_SIZE }
    ensures { result ≡ next_pos n pos }
{
    if 4 + n <= pos { 5 } else { pos + 1 }
}

fn mark(long: bool, pos: usize) -> bool
    ensures { result ≡ either long (nat_le 260 pos) }
{
    long | (260 <= pos)
}

// The page's running AND with the byte that comes next.
pub(crate) fn gather(t: Trans, page: &mut [u8; 256], byte: u8)
    ensures { page.new ≡ gathered t page.old byte }
{
    let pos = t.pos;
    if pos < 4 {
        return;
    }
    let k = (usize::from(t.a3) + (pos - 4) % 256) % 256;
    page[k] = page[k] & byte;
}

// Four choices without a branch: a match on the position would branch at every byte that is sent.
pub(crate) fn push(t: Trans, n: usize, byte: u8) -> Trans
    requires { n ≤ FLASH_SIZE }
    ensures { result ≡ pushed t n byte }
{
    let pos = t.pos;
    Trans {
        cmd: choose(pos == 0, byte, t.cmd),
        a1: choose(pos == 1, byte, t.a1),
        a2: choose(pos == 2, byte, t.a2),
        a3: choose(pos == 3, byte, t.a3),
        pos: next(pos, n),
        long: mark(t.long, pos),
    }
}

// flash_addr: the bytes one to three, in an array of n bytes.
pub(crate) fn address(t: Trans, n: usize) -> usize
    requires { 0 < n }
    ensures { result ≡ addr_of t n }
{
    u32::from_be_bytes([0, t.a1, t.a2, t.a3]) as usize % n
}
