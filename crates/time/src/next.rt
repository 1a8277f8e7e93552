// The time of the next thing that can change what the CPU sees: next_event of the Rust.
ghost use Rattle.std.specs.Prelude.{◌≡◌, ◌<◌, List, get_or, slice_index_or, Float};
ghost use Rattle.map.specs.Numbers.{TIMER_COUNT};
ghost use Rattle.time.specs.Next.{one_more, vsync_next, timer_next, game_next, runs, pends, any_pends, with_timer};
ghost use Rattle.time.specs.Next.{with_timers};
ghost use Rattle.state.specs.Parts.{none};
ghost use Rattle.state.specs.Bank.{timers_in, clocks_in, keys_in};
ghost use Rattle.time.specs.Clocks.{clock_in};
ghost use Rattle.time.specs.Next.{earliest, event_of, finite, answered, next_answer, next_of};

use crate::irq::{irq_wanted, timer_irq_line};
use crate::sysclk_var;
use clock::Times;
use keys::edges::min;
use map::Refusal;
use state::moments::{converting_of, irq_of, pending_of, timer_of, times_of, vsync_of};
use state::{Cells, Floats};
use timer::Timer;

// (n + 1) as f64, of a release build.
fn one_more(n: u64) -> f64
    ensures { result ≡ one_more n }
{
    std::num::nearest_u64_to_f64(n.wrapping_add(1))
}

fn vsync_next(last: u64) -> f64
    ensures { result ≡ vsync_next last }
{
    one_more(last) / 60.0
}

fn timer_next(t: Timer, clock: u32, control: u32, reload: u32) -> f64
    ensures { result ≡ timer_next t clock control reload }
{
    let n = one_more(t.seen);
    let p = timer::period(reload) as f64;
    t.start + n * p / timer::rate(clock, control)
}

fn game_next(t: Times, fired: u64) -> f64
    ensures { result ≡ game_next t fired }
{
    t.now + (one_more(fired) * 1.0 - t.game) / t.turbo
}

fn runs(control: u32) -> bool
    ensures { result ≡ runs control }
{
    control & 0x6000 == 0x6000
}

// Whether timer n runs with its interrupt pending.
fn pends(slots: &[u32; 76], cells: &Cells, n: u32) -> bool
    requires { n < TIMER_COUNT }
    ensures { (f : List Float) → result ≡ pends slots.now n
        (slice_index_or (timers_in cells.now f) n none) }
{
    runs(registers::own_reg(slots, map::TIMER_BASE + map::TIMER_STEP * n))
        & pending_of(cells, n as usize)
}

fn each_pends(slots: &[u32; 76], cells: &Cells) -> bool
    ensures { (f : List Float) → result ≡ any_pends slots.now (timers_in cells.now f) }
{
    let mut any = false;
    for n in 0..map::TIMER_COUNT as u32 {
        any = any | pends(slots, cells, n);
    }
    any
}

// Mostly no timer is pending, and then no control word needs to be looked at.
fn any_pends(slots: &[u32; 76], cells: &Cells) -> bool
    ensures { (f : List Float) → result ≡ any_pends slots.now (timers_in cells.now f) }
{
    if timer_irq_line(cells) {
        return each_pends(slots, cells);
    }
    false
}

// The earlier of `so` and what timer n waits for.
fn with_timer(slots: &[u32; 76], cells: &Cells, floats: &Floats, n: u32, clock: u32, so: f64) -> f64
    requires { n < TIMER_COUNT }
    ensures { result ≡ with_timer slots.now n (get_or (timers_in cells.now floats.now)
        n none) clock so }
{
    let control = registers::own_reg(slots, map::TIMER_BASE + map::TIMER_STEP * n);
    if runs(control) {
        let reload = registers::own_reg(slots, map::TIMER_RELOAD + map::TIMER_STEP * n);
        let t = timer_of(cells, floats, n as usize);
        return min(so, timer_next(t, clock, control, reload));
    }
    so
}

fn with_timers(slots: &[u32; 76], cells: &Cells, floats: &Floats, clock: u32, so: f64) -> f64
    ensures { result ≡ with_timers slots.now (timers_in cells.now floats.now)
        clock so }
{
    let mut t = so;
    for n in 0..map::TIMER_COUNT as u32 {
        t = with_timer(slots, cells, floats, n, clock, t);
    }
    t
}

// The earliest of the vertical sync, the timers, the 1 Hz tick and the keys' edges.
fn earliest(
    slots: &[u32; 76],
    cells: &Cells,
    floats: &Floats,
    starts: &[f64; 64],
    clock: u32,
) -> f64
    ensures { result ≡ earliest slots.now starts.now (clocks_in cells.now
        floats.now)
        (keys_in cells.now floats.now) clock }
{
    let t = times_of(floats);
    let irq = irq_of(cells, floats);
    let timer = with_timers(slots, cells, floats, clock, vsync_next(vsync_of(cells)));
    let tick = min(timer, game_next(t, irq.fired));
    let k = state::rests::keys_of(cells, floats);
    keys::edges::next_edge(starts, k, t.now, tick)
}

// The Rust returns at the first timer that is pending, whatever the timers before it wait for; so all are asked first.
fn event_time(
    slots: &[u32; 76],
    cells: &Cells,
    floats: &Floats,
    sram: &[u8],
    starts: &[f64; 64],
) -> f64
    ensures { result ≡ event_of slots.now starts.now (clocks_in cells.now
        floats.now)
        (keys_in cells.now floats.now) (clock_in sram.now) }
{
    let t = times_of(floats);
    if converting_of(cells) | irq_wanted(slots, cells) {
        return t.now;
    }
    if any_pends(slots, cells) {
        return t.now;
    }
    let clock = sysclk_var(sram);
    earliest(slots, cells, floats, starts, clock)
}

// Between the least and the greatest f64.
fn finite(t: f64) -> bool
    ensures { result ≡ finite t }
{
    (-1.7976931348623157e308 <= t) & (t <= 1.7976931348623157e308)
}

fn answered(t: f64) -> Result<f64, Refusal>
    ensures { next_answer result ≡ answered t }
{
    if finite(t) {
        return Ok(t);
    }
    Err(Refusal::NoNextTime)
}

// `starts` are the presses'.
pub fn next_event(
    slots: &[u32; 76],
    cells: &Cells,
    floats: &Floats,
    sram: &[u8],
    starts: &[f64; 64],
) -> Result<f64, Refusal>
    ensures { next_answer result ≡ next_of slots.now starts.now (clocks_in cells.now
        floats.now)
        (keys_in cells.now floats.now) (clock_in sram.now) }
{
    answered(event_time(slots, cells, floats, sram, starts))
}
