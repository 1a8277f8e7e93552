// Time goes on: advance of the Rust, and what it calls, in the Rust's order.
//
// A stopped timer, an ADC that converts nothing, a sync and a tick that have not moved are left alone, as in the Rust.
// The rest is put back, changed or not, as the definitions put everything.
ghost use Rattle.std.specs.Prelude.{◌≡◌, ◌<◌, List, slice_index_or, Float};
ghost use Rattle.map.specs.Numbers.{DONE, TIMER_COUNT};
ghost use Rattle.map.specs.Refusals.{number_of};
ghost use Rattle.state.specs.Parts.{none, timer_put, timers_put};
ghost use Rattle.state.specs.Bank.{timers_in, irq_in, clocks_in, keys_in, parts_in};
ghost use Rattle.state.specs.Packed.{StaysPacked, Answered};
ghost use Rattle.time.specs.Clocks.{clock_in};
ghost use Rattle.time.specs.Advance.{timer_after, timers_after, synced_of, converted_in, ticked_in, devices_of};
ghost use Rattle.time.specs.Advance.{moved_to, advance_of};
ghost use Rattle.time.specs.Bank.{moved_bank, moves_of};
ghost use Rattle.time.specs.Inner.{went, synced_put, converted_put, ticked_put, went_of};

use crate::sysclk_var;
use clock::{Adc, Times};
use map::Refusal;
use state::{Cells, Floats};
use whole::limits::Given;

// Timer n of the six.
fn timer_advance(
    slots: &[u32; 76],
    cells: &mut Cells,
    floats: &mut Floats,
    n: u32,
    time: f64,
    clock: u32,
)
    requires { n < TIMER_COUNT }
    ensures { (parts_in cells.new floats.new
        ≡ timer_put (parts_in cells.old floats.old) n
        (timer_after slots.now n (slice_index_or (timers_in cells.old
        floats.old) n none) time clock))
        × StaysPacked cells.old floats.old cells.new floats.new }
{
    let control = registers::own_reg(slots, map::TIMER_BASE + map::TIMER_STEP * n);
    if control & 0x2000 == 0 {
        return;
    }
    let reload = registers::own_reg(slots, map::TIMER_RELOAD + map::TIMER_STEP * n);
    let t = state::moments::timer_of(cells, floats, n as usize);
    let next = timer::advance(t, time, clock, control, reload);
    state::moments::put_timer(cells, floats, n as usize, next);
}

fn timers_advance(slots: &[u32; 76], cells: &mut Cells, floats: &mut Floats, time: f64, clock: u32)
    ensures { (parts_in cells.new floats.new
        ≡ timers_put (parts_in cells.old floats.old)
        (timers_after slots.now (timers_in cells.old floats.old) time clock))
        × StaysPacked cells.old floats.old cells.new floats.new }
{
    for n in 0..map::TIMER_COUNT as u32 {
        timer_advance(slots, cells, floats, n, time, clock);
    }
}

// The panel's vertical sync.
fn vsync(slots: &mut [u32; 76], cells: &mut Cells, time: f64)
    ensures { (f : List Float) → (went slots.new (parts_in cells.new f)
        ≡ synced_put (parts_in cells.old f) (synced_of slots.old
        (clocks_in cells.old f).vsync time))
        × StaysPacked cells.old f cells.new f }
{
    let status = registers::own_reg(slots, map::LCD_STATUS);
    let last = state::moments::vsync_of(cells);
    let s = clock::sources::vsync(last, time, status);
    if s.seen == last {
        return;
    }
    registers::own_insert(slots, map::LCD_STATUS, s.status);
    state::moments::put_vsync(cells, s.seen);
}

fn adc_advance(slots: &mut [u32; 76], cells: &mut Cells)
    ensures { (f : List Float) → (went slots.new (parts_in cells.new f)
        ≡ converted_put (parts_in cells.old f) (converted_in slots.old
        (clocks_in cells.old f).converting))
        × StaysPacked cells.old f cells.new f }
{
    let converting = state::moments::converting_of(cells);
    if !converting {
        return;
    }
    let control = registers::own_reg(slots, map::ADC_CONTROL);
    let result = registers::own_reg(slots, map::ADC_RESULT);
    let adc = clock::convert::adc_advance(Adc {
        converting,
        control,
        result,
    });
    registers::own_insert(slots, map::ADC_RESULT, adc.result);
    registers::own_insert(slots, map::ADC_CONTROL, adc.control);
    state::moments::put_converting(cells, adc.converting);
}

fn rtc_irq_advance(slots: &mut [u32; 76], cells: &mut Cells, floats: &mut Floats, game: f64)
    ensures { (went slots.new (parts_in cells.new floats.new)
        ≡ ticked_put (parts_in cells.old floats.old)
        (ticked_in slots.old (irq_in cells.old floats.old) game))
        × StaysPacked cells.old floats.old cells.new floats.new }
{
    let status = registers::own_reg(slots, map::RTC_IRQ_STATUS);
    let irq = state::moments::irq_of(cells, floats);
    let t = clock::sources::rtc_irq_advance(irq, game, status);
    if t.irq.fired == irq.fired {
        return;
    }
    registers::own_insert(slots, map::RTC_IRQ_STATUS, t.status);
    state::moments::put_irq(cells, floats, t.irq);
}

// All devices, at the times t.
fn devices_advance(
    slots: &mut [u32; 76],
    cells: &mut Cells,
    floats: &mut Floats,
    clock: u32,
    t: Times,
)
    ensures { (went slots.new (parts_in cells.new floats.new)
        ≡ went_of (parts_in cells.old floats.old)
        (devices_of slots.old (clocks_in cells.old floats.old) clock t))
        × StaysPacked cells.old floats.old cells.new floats.new }
{
    timers_advance(slots, cells, floats, t.now, clock);
    vsync(slots, cells, t.now);
    adc_advance(slots, cells);
    rtc_irq_advance(slots, cells, floats, t.game);
    state::moments::put_times(floats, t);
}

// The devices, and then the keys.
fn move_to(
    slots: &mut [u32; 76],
    cells: &mut Cells,
    floats: &mut Floats,
    gpio: &mut [u8],
    starts: &[f64; 64],
    codes: &[u8; 64],
    clock: u32,
    t: Times,
)
    ensures { (moved_bank slots.new gpio.new DONE
        (parts_in cells.new floats.new)
        ≡ moves_of (parts_in cells.old floats.old)
        (moved_to slots.old gpio.old starts.now codes.now
        (clocks_in cells.old floats.old)
        (keys_in cells.old floats.old) clock t))
        × StaysPacked cells.old floats.old cells.new floats.new }
{
    devices_advance(slots, cells, floats, clock, t);
    let k = state::rests::keys_of(cells, floats);
    let held = keys::down::keys_held(starts, codes, k, t.now);
    let applied = keys::gpio::sync_gpio(gpio, k.applied, held);
    state::rests::put_applied(cells, applied);
}

// Bring the hardware up to emulated time `to`. `starts` and `codes` are the presses'.
pub fn advance<T: Given>(
    slots: &mut [u32; 76],
    cells: &mut Cells,
    floats: &mut Floats,
    sram: &[u8],
    gpio: &mut [u8],
    starts: &[f64; 64],
    codes: &[u8; 64],
    to: T,
) -> Result<(), Refusal>
    ensures { (moved_bank slots.new gpio.new (number_of result)
        (parts_in cells.new floats.new)
        ≡ moves_of (parts_in cells.old floats.old)
        (advance_of slots.old gpio.old starts.now codes.now
        (clocks_in cells.old floats.old)
        (keys_in cells.old floats.old) (clock_in sram.now) (T.float to)))
        × Answered (number_of result) cells.old floats.old cells.new floats.new }
{
    let before = state::moments::times_of(floats);
    let moved = clock::pace::advance(before, to)?;
    let clock = sysclk_var(sram);
    move_to(slots, cells, floats, gpio, starts, codes, clock, moved);
    Ok(())
}
