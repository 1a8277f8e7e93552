// Time: advance, the next event, interrupts, turbo, and what the clocks say.
ghost use Rattle.std.specs.Prelude.{◌≡◌, List, ℕ, Float};
ghost use Rattle.whole.specs.Forms.{nought};
ghost use Rattle.state.specs.Bank.{parts_in};
ghost use Rattle.state.specs.Packed.{Answered};
ghost use Rattle.system.specs.Bank.{machine_of};
ghost use Rattle.system.specs.Steps as steps;
ghost use Rattle.system.specs.Steps.{words, plainly, floats as in_floats, step};
ghost use Rattle.live.specs.Live.{only, only_time, called, tod_of, ticks_of, alarm_seen, alarm_of};

use script::{BAD_MEMORY, bad_memory};
use state::{Cells, Floats};

// Brings the hardware up to a time.
pub fn tg18_lent_advance(
    slots: &mut [u32; 76],
    starts: &[f64; 64],
    codes: &[u8; 64],
    cells: &mut Cells,
    floats: &mut Floats,
    ram: &[u8],
    sram: &[u8],
    gpio: &mut [u8],
    fb: &[u8],
    to: f64,
) -> u32
    ensures { (addresses values rtc page : List ℕ) (onsets frequencies duties : List Float) →
        (plainly (machine_of slots.new addresses values rtc page onsets frequencies duties
        starts.now codes.now (parts_in cells.new floats.new)
        ram.now sram.now gpio.new fb.now) result
        ≡ called (machine_of slots.old addresses values rtc page onsets frequencies duties
        starts.now codes.now (parts_in cells.old floats.old)
        ram.now sram.now gpio.old fb.now) (steps.advance to))
        × Answered result cells.old floats.old cells.new floats.new }
{
    if bad_memory(ram, sram, gpio, fb) {
        return BAD_MEMORY;
    }
    map::status(time::advancing::advance(slots, cells, floats, sram, gpio, starts, codes, to))
}

// When something can happen next.
pub fn tg18_lent_next_event(
    slots: &[u32; 76],
    starts: &[f64; 64],
    cells: &Cells,
    floats: &Floats,
    ram: &[u8],
    sram: &[u8],
    gpio: &[u8],
    fb: &[u8],
    at: &mut [f64; 1],
) -> u32
    ensures { (addresses values rtc page : List ℕ) (onsets frequencies duties : List Float) (codes : List ℕ) →
        in_floats (machine_of slots.now addresses values rtc page onsets frequencies duties
        starts.now codes (parts_in cells.now floats.now) ram.now
        sram.now gpio.now fb.now) result (only_time at.new) nought nought
        ≡ called (machine_of slots.now addresses values rtc page onsets frequencies duties
        starts.now codes (parts_in cells.now floats.now) ram.now
        sram.now gpio.now fb.now) steps.next_event }
{
    if bad_memory(ram, sram, gpio, fb) {
        *at = [0.0];
        return BAD_MEMORY;
    }
    let next = time::next::next_event(slots, cells, floats, sram, starts);
    *at = [next.unwrap_or(0.0)];
    map::status(next)
}

// The number of the interrupt that waits, or 0.
pub fn tg18_lent_pending_irq(slots: &[u32; 76], cells: &Cells) -> u32
    ensures { (addresses values rtc page : List ℕ) (onsets frequencies duties starts : List Float)
        (codes : List ℕ) (f : List Float) (ram sram gpio fb : List ℕ) →
        words (machine_of slots.now addresses values rtc page onsets frequencies duties starts codes (parts_in
        cells.now f) ram sram gpio fb) 0 result 0 0
        ≡ step (machine_of slots.now addresses values rtc page onsets frequencies duties starts codes
        (parts_in cells.now f) ram sram gpio fb) steps.pending }
{
    time::irq::pending_irq(slots, cells)
}

// 1 where one waits and interrupts are on.
pub fn tg18_lent_irq_wanted(slots: &[u32; 76], cells: &Cells) -> u32
    ensures { (addresses values rtc page : List ℕ) (onsets frequencies duties starts : List Float)
        (codes : List ℕ) (f : List Float) (ram sram gpio fb : List ℕ) →
        words (machine_of slots.now addresses values rtc page onsets frequencies duties starts codes (parts_in
        cells.now f) ram sram gpio fb) 0 result 0 0
        ≡ step (machine_of slots.now addresses values rtc page onsets frequencies duties starts codes
        (parts_in cells.now f) ram sram gpio fb) steps.irq_wanted }
{
    u32::from(time::irq::irq_wanted(slots, cells))
}

// How fast game time goes.
pub fn tg18_lent_turbo(floats: &mut Floats, to: f64) -> u32
    ensures { (slots addresses values rtc page : List ℕ) (onsets frequencies duties starts : List Float)
        (codes l ram sram gpio fb : List ℕ) →
        (plainly (machine_of slots addresses values rtc page onsets frequencies duties starts codes (parts_in l
        floats.new) ram sram gpio fb) result
        ≡ step (machine_of slots addresses values rtc page onsets frequencies duties starts codes (parts_in l
        floats.old) ram sram gpio fb) (steps.turbo to))
        × Answered result l floats.old l floats.new }
{
    map::status(time::pace::set_turbo(floats, to))
}

// Seconds of the day.
pub fn tg18_lent_tod(cells: &Cells, floats: &Floats) -> u64
    ensures { (slots addresses values rtc page : List ℕ) (onsets frequencies duties starts : List Float)
        (codes ram sram gpio fb : List ℕ) →
        result
        ≡ tod_of (machine_of slots addresses values rtc page onsets frequencies duties starts codes (parts_in
        cells.now floats.now) ram sram gpio fb) }
{
    let times = state::moments::times_of(floats);
    let irq = state::moments::irq_of(cells, floats);
    clock::day::tod(irq, times.game)
}

// Ticks of the RTC, as the 64 bits of the Rust's i64.
pub fn tg18_lent_ticks(cells: &Cells, floats: &Floats) -> u64
    ensures { (slots addresses values rtc page : List ℕ) (onsets frequencies duties starts : List Float)
        (codes ram sram gpio fb : List ℕ) →
        result
        ≡ ticks_of (machine_of slots addresses values rtc page onsets frequencies duties starts codes (parts_in
        cells.now floats.now) ram sram gpio fb) }
{
    let times = state::moments::times_of(floats);
    let latch = state::rests::latch_of(cells, floats);
    clock::chip::ticks(latch, times.game)
}

// 1 and the alarm's ticks, or 0 and 0 where none is on.
pub fn tg18_lent_alarm_ticks(rtc: &[u8; 256], ticks: &mut [u64; 1]) -> u32
    ensures { (slots addresses values page : List ℕ) (onsets frequencies duties starts : List Float)
        (codes l : List ℕ) (f : List Float) (ram sram gpio fb : List ℕ) →
        alarm_seen result (only ticks.new)
        ≡ alarm_of (machine_of slots addresses values rtc.now page onsets frequencies duties starts codes
        (parts_in l f) ram sram gpio fb) }
{
    let alarm = clock::chip::alarm_ticks(rtc);
    match alarm {
        None => {
            *ticks = [0];
            0
        }
        Some(at) => {
            *ticks = [at];
            1
        }
    }
}
