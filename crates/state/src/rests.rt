// The RTC's latch, the buzzer's tone, the power, the sound queue's ring and the keys.
ghost use Rattle.std.specs.Prelude.{◌≡◌, [], ◌∷◌, set};
ghost use Rattle.whole.specs.Forms.{bit};
ghost use Rattle.state.specs.Parts.{latch_put, tone_put, off_put, ring_put, keys_put, count_put, live_put, hold_put};
ghost use Rattle.state.specs.Parts.{applied_put};
ghost use Rattle.state.specs.Bank.{latch_in, tone_in, devices_in, ring_in, keys_in, parts_in};
ghost use Rattle.state.specs.Packed.{key_cells, live_cells, hold_floats, laid_at, Put, CellsPut, FloatsPut};

use crate::numbers::byte;
use crate::places::{
    APPLIED, DUTY, FREQUENCY, HEAD, HOLD_A, HOLD_B, HOLD_C, LATCHED, LATCHED_AT, LIVE_A, LIVE_B,
    LIVE_C, OFF, OUT, PRESSES, WAITING,
};
use crate::{Cells, Floats};
use clock::Latch;
use keys::{Held, Holds, Keys};
use timer::{Ring, Tone};
use whole::forms::low;

pub fn latch_of(cells: &Cells, floats: &Floats) -> Latch
    ensures { result ≡ latch_in cells.now floats.now }
{
    Latch {
        base: cells[LATCHED],
        since: floats[LATCHED_AT],
        out: low(cells[OUT]),
    }
}

pub fn put_latch(cells: &mut Cells, floats: &mut Floats, latch: Latch)
    ensures { Put cells.old floats.old cells.new floats.new
        (laid_at cells.old 41 (latch.base ∷ latch.out ∷ [])) (set floats.old 10
        latch.since) (latch_put (parts_in cells.old floats.old) latch) }
{
    cells[LATCHED] = latch.base;
    cells[OUT] = latch.out as u64;
    floats[LATCHED_AT] = latch.since;
}

pub fn tone_of(floats: &Floats) -> Tone
    ensures { result ≡ tone_in floats.now }
{
    Tone {
        frequency: floats[FREQUENCY],
        duty: floats[DUTY],
    }
}

pub fn put_tone(floats: &mut Floats, tone: Tone)
    ensures { FloatsPut floats.old floats.new
        (laid_at floats.old 11 (tone.frequency ∷ tone.duty ∷ [])) (λ x. tone_put x tone) }
{
    floats[FREQUENCY] = tone.frequency;
    floats[DUTY] = tone.duty;
}

pub fn off_of(cells: &Cells) -> bool
    ensures { result ≡ (devices_in cells.now []).off }
{
    cells[OFF] != 0
}

pub fn put_off(cells: &mut Cells, off: bool)
    ensures { CellsPut cells.old cells.new (set cells.old 43 (bit off))
        (λ x. off_put x off) }
{
    cells[OFF] = u64::from(off);
}

pub fn ring_of(cells: &Cells) -> Ring
    ensures { result ≡ ring_in cells.now }
{
    Ring {
        head: byte(cells[HEAD]),
        count: cells[WAITING] as usize,
    }
}

pub fn put_ring(cells: &mut Cells, ring: Ring)
    ensures { CellsPut cells.old cells.new
        (laid_at cells.old 44 (ring.head ∷ ring.count ∷ [])) (λ x. ring_put x ring) }
{
    cells[HEAD] = ring.head as u64;
    cells[WAITING] = ring.count as u64;
}

pub fn keys_of(cells: &Cells, floats: &Floats) -> Keys
    ensures { result ≡ keys_in cells.now floats.now }
{
    let live = Held {
        a: cells[LIVE_A] != 0,
        b: cells[LIVE_B] != 0,
        c: cells[LIVE_C] != 0,
    };
    let holds = Holds {
        a: floats[HOLD_A],
        b: floats[HOLD_B],
        c: floats[HOLD_C],
    };
    Keys {
        count: cells[PRESSES] as usize,
        live,
        holds,
        applied: low(cells[APPLIED]),
    }
}

pub fn put_keys(cells: &mut Cells, floats: &mut Floats, keys: Keys)
    ensures { Put cells.old floats.old cells.new floats.new
        (laid_at cells.old 46 (key_cells keys))
        (laid_at floats.old 13 (keys.holds.a ∷ keys.holds.b ∷ keys.holds.c ∷ []))
        (keys_put (parts_in cells.old floats.old) keys) }
{
    let live = keys.live;
    let holds = keys.holds;
    cells[PRESSES] = keys.count as u64;
    cells[LIVE_A] = u64::from(live.a);
    cells[LIVE_B] = u64::from(live.b);
    cells[LIVE_C] = u64::from(live.c);
    cells[APPLIED] = keys.applied as u64;
    floats[HOLD_A] = holds.a;
    floats[HOLD_B] = holds.b;
    floats[HOLD_C] = holds.c;
}

pub fn put_count(cells: &mut Cells, n: usize)
    ensures { CellsPut cells.old cells.new (set cells.old 46 n)
        (λ x. count_put x n) }
{
    cells[PRESSES] = n as u64;
}

// Key 0, 1 or 2; there is no other.
pub fn put_live(cells: &mut Cells, key: usize, down: bool)
    ensures { CellsPut cells.old cells.new (live_cells cells.old key down)
        (λ x. live_put x key down) }
{
    let on = u64::from(down);
    if key < 3 {
        cells[LIVE_A + key] = on;
    }
}

pub fn put_hold(floats: &mut Floats, key: usize, until: f64)
    ensures { FloatsPut floats.old floats.new (hold_floats floats.old key until)
        (λ x. hold_put x key until) }
{
    if key < 3 {
        floats[HOLD_A + key] = until;
    }
}

pub fn put_applied(cells: &mut Cells, applied: u32)
    ensures { CellsPut cells.old cells.new (set cells.old 50 applied)
        (λ x. applied_put x applied) }
{
    cells[APPLIED] = applied as u64;
}

pub fn out_of(cells: &Cells) -> u32
    ensures { result ≡ (latch_in cells.now []).out }
{
    low(cells[OUT])
}
