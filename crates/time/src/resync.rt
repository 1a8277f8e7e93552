// timers_resync of the Rust: the periods that each timer has seen, counted anew.
//
// A timer is put back whole, so the floats are lent to be changed; they stay as they are, and the contracts say so.
ghost use Rattle.std.specs.Prelude.{◌≡◌, ◌<◌, slice_index_or};
ghost use Rattle.map.specs.Numbers.{TIMER_COUNT};
ghost use Rattle.state.specs.Parts.{none, timer_put, timers_put, clocks_put};
ghost use Rattle.state.specs.Bank.{timers_in, clocks_in, parts_in};
ghost use Rattle.state.specs.Packed.{StaysPacked};
ghost use Rattle.timer.specs.Timers.{resynced_of};
ghost use Rattle.time.specs.Clocks.{clock_in, control_word, reload_word};
ghost use Rattle.time.specs.Resync.{timers_resynced, clocks_resynced};

use crate::sysclk_var;
use state::{Cells, Floats};

// Timer n of the six.
fn timer_resync(
    slots: &[u32; 76],
    cells: &mut Cells,
    floats: &mut Floats,
    n: u32,
    time: f64,
    clock: u32,
)
    requires { n < TIMER_COUNT }
    ensures { (parts_in cells.new floats.new
        ≡ timer_put (parts_in cells.old floats.old) n
        (resynced_of (slice_index_or (timers_in cells.old floats.old) n none) time clock
        (control_word slots.now n) (reload_word slots.now n)))
        × StaysPacked cells.old floats.old cells.new floats.new
        × (floats.new ≡ floats.old) }
{
    let control = registers::own_reg(slots, map::TIMER_BASE + map::TIMER_STEP * n);
    let reload = registers::own_reg(slots, map::TIMER_RELOAD + map::TIMER_STEP * n);
    let t = state::moments::timer_of(cells, floats, n as usize);
    let next = timer::resync(t, time, clock, control, reload);
    state::moments::put_timer(cells, floats, n as usize, next);
}

fn timers_resync(slots: &[u32; 76], cells: &mut Cells, floats: &mut Floats, time: f64, clock: u32)
    ensures { (parts_in cells.new floats.new
        ≡ timers_put (parts_in cells.old floats.old)
        (timers_resynced slots.now (timers_in cells.old floats.old) time clock))
        × StaysPacked cells.old floats.old cells.new floats.new
        × (floats.new ≡ floats.old) }
{
    for n in 0..map::TIMER_COUNT as u32 {
        timer_resync(slots, cells, floats, n, time, clock);
    }
}

// All six, at the time that the bank has.
pub fn resync(slots: &[u32; 76], cells: &mut Cells, floats: &mut Floats, sram: &[u8])
    ensures { (parts_in cells.new floats.new
        ≡ clocks_put (parts_in cells.old floats.old)
        (clocks_resynced slots.now (clocks_in cells.old floats.old)
        (clock_in sram.now)))
        × StaysPacked cells.old floats.old cells.new floats.new
        × (floats.new ≡ floats.old) }
{
    let times = state::moments::times_of(floats);
    let clock = sysclk_var(sram);
    timers_resync(slots, cells, floats, times.now, clock);
}
