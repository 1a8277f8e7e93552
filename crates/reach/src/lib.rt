// Whether a flash transaction is one that selects and bytes can leave. A saved session may hold no other: the chip's
// position goes round, so that a range for each number would allow transactions that no list of bytes makes.
#![tactic(auto)]

ghost use Rattle.std.specs.Prelude.{◌+◌, ◌<◌, ◌≡◌, leb};
ghost use Rattle.reach.specs.Reach.{header_ok, mark_ok, slot_ok, page_ok, reachable};

use flash::Trans;

// `size + 4` may not fit.
fn within(size: usize, pos: usize) -> bool
    ensures { result ≡ leb pos (size + 4) }
{
    pos.saturating_sub(4) <= size
}

fn header_ok(t: Trans) -> bool
    ensures { result ≡ header_ok t }
{
    let pos = t.pos;
    (((0 < pos) | (t.cmd == 0)) & ((1 < pos) | (t.a1 == 0)))
        & (((2 < pos) | (t.a2 == 0)) & ((3 < pos) | (t.a3 == 0)))
}

fn mark_ok(t: Trans) -> bool
    ensures { result ≡ mark_ok t }
{
    if t.long {
        return 5 <= t.pos;
    }
    t.pos <= 260
}

fn slot_ok(t: Trans, k: usize, value: u8) -> bool
    requires { k < 256 }
    ensures { result ≡ slot_ok t k value }
{
    let start = t.a3 as usize;
    (value == 255) | (t.long | ((k + 256 - start) % 256 + 4 < t.pos))
}

fn page_ok(t: Trans, page: &[u8; 256]) -> bool
    ensures { result ≡ page_ok t page.now 256 }
{
    let mut good = true;
    for (i, value) in page.iter().enumerate() {
        good = slot_ok(t, i, *value) & good;
    }
    good
}

// Over an array of `size` bytes, with the page's running AND beside the transaction.
pub fn reachable(size: usize, t: Trans, page: &[u8; 256]) -> bool
    ensures { result ≡ reachable size t page.now }
{
    (within(size, t.pos) & header_ok(t)) & (mark_ok(t) & page_ok(t, page))
}
