// The scalars that time moves.
ghost use Rattle.std.specs.Prelude.{◌≡◌, List, [], ◌∷◌, Float, get_or, set};
ghost use Rattle.whole.specs.Forms.{bit};
ghost use Rattle.state.specs.Parts.{none, times_put, turbo_put, timer_put, irq_put, vsync_put, converting_put};
ghost use Rattle.state.specs.Bank.{times_in, timers_in, irq_in, clocks_in, parts_in};
ghost use Rattle.state.specs.Packed.{times_floats, timer_cells, timer_floats, laid_at, Put, CellsPut, FloatsPut};

use crate::places::{
    CONVERTING, DAY, DAY_SET, FIRED, GAME, NOW, PENDING, SEEN, START, TURBO, VSYNC,
};
use crate::{Cells, Clocks, Floats};
use clock::{RtcIrq, Times};
use std::array;
use timer::Timer;
use whole::forms::low;

pub fn times_of(floats: &Floats) -> Times
    ensures { result ≡ times_in floats.now }
{
    Times {
        now: floats[NOW],
        game: floats[GAME],
        turbo: floats[TURBO],
    }
}

pub fn put_times(floats: &mut Floats, times: Times)
    ensures { FloatsPut floats.old floats.new
        (laid_at floats.old 0 (times_floats times)) (λ x. times_put x times) }
{
    floats[NOW] = times.now;
    floats[GAME] = times.game;
    floats[TURBO] = times.turbo;
}

pub fn put_turbo(floats: &mut Floats, turbo: f64)
    ensures { FloatsPut floats.old floats.new (set floats.old 2 turbo)
        (λ x. turbo_put x turbo) }
{
    floats[TURBO] = turbo;
}

// Timer n of the six; past them one that never ran.
pub fn timer_of(cells: &Cells, floats: &Floats, n: usize) -> Timer
    ensures { result ≡ get_or (timers_in cells.now floats.now) n none }
{
    if n < map::TIMER_COUNT {
        return Timer {
            start: floats[START + n],
            seen: cells[SEEN + n],
            pending: cells[PENDING + n] != 0,
        };
    }
    Timer {
        start: 0.0 / 0.0,
        seen: 0,
        pending: false,
    }
}

pub fn pending_of(cells: &Cells, n: usize) -> bool
    ensures { (f : List Float) → result ≡ (get_or (timers_in cells.now f) n none).pending }
{
    if n < map::TIMER_COUNT {
        return cells[PENDING + n] != 0;
    }
    false
}

// Timer n of the six; there is no other.
pub fn put_timer(cells: &mut Cells, floats: &mut Floats, n: usize, timer: Timer)
    ensures { Put cells.old floats.old cells.new floats.new
        (timer_cells cells.old n timer) (timer_floats floats.old n timer) (timer_put (parts_in
        cells.old floats.old) n timer) }
{
    let on = u64::from(timer.pending);
    if n < map::TIMER_COUNT {
        floats[START + n] = timer.start;
        cells[SEEN + n] = timer.seen;
        cells[PENDING + n] = on;
    }
}

fn timers_of(cells: &Cells, floats: &Floats) -> [Timer; 6]
    ensures { result ≡ timers_in cells.now floats.now }
{
    array::from_fn(|n| timer_of(cells, floats, n))
}

pub fn irq_of(cells: &Cells, floats: &Floats) -> RtcIrq
    ensures { result ≡ irq_in cells.now floats.now }
{
    RtcIrq {
        fired: cells[FIRED],
        base: low(cells[DAY]),
        set: floats[DAY_SET],
    }
}

pub fn put_irq(cells: &mut Cells, floats: &mut Floats, irq: RtcIrq)
    ensures { Put cells.old floats.old cells.new floats.new
        (laid_at cells.old 37 (irq.fired ∷ irq.base ∷ [])) (set floats.old 9 irq.set)
        (irq_put (parts_in cells.old floats.old) irq) }
{
    cells[FIRED] = irq.fired;
    cells[DAY] = irq.base as u64;
    floats[DAY_SET] = irq.set;
}

pub fn vsync_of(cells: &Cells) -> u64
    ensures { result ≡ (clocks_in cells.now []).vsync }
{
    cells[VSYNC]
}

pub fn put_vsync(cells: &mut Cells, n: u64)
    ensures { CellsPut cells.old cells.new (set cells.old 39 n)
        (λ x. vsync_put x n) }
{
    cells[VSYNC] = n;
}

pub fn converting_of(cells: &Cells) -> bool
    ensures { result ≡ (clocks_in cells.now []).converting }
{
    cells[CONVERTING] != 0
}

pub fn put_converting(cells: &mut Cells, on: bool)
    ensures { CellsPut cells.old cells.new (set cells.old 40 (bit on))
        (λ x. converting_put x on) }
{
    cells[CONVERTING] = u64::from(on);
}

pub fn clocks_of(cells: &Cells, floats: &Floats) -> Clocks
    ensures { result ≡ clocks_in cells.now floats.now }
{
    let times = times_of(floats);
    let timers = timers_of(cells, floats);
    let irq = irq_of(cells, floats);
    Clocks {
        times,
        timers,
        irq,
        vsync: cells[VSYNC],
        converting: cells[CONVERTING] != 0,
    }
}
