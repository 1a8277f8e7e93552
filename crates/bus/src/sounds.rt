// The timers' control words, and the buzzer that follows timer 4.
ghost use Rattle.std.specs.Prelude.{◌≡◌, ◌/◌, ◌<◌};
ghost use Rattle.registers.specs.Ports.{slot_word};
ghost use Rattle.state.specs.Bank.{parts_in};
ghost use Rattle.bus.specs.Answers.{answer_of};
ghost use Rattle.bus.specs.Inner.{Rest, wrote_of};
ghost use Rattle.bus.specs.Sounds.{sound_of, sound_written, timer_written};
ghost use Rattle.bus.specs.World.{own_out};

use crate::Accepted;
use crate::words::accepted;
use map::Refusal;
use state::moments::put_timer;
use state::rests::put_tone;
use state::{Cells, Floats};
use timer::Tone;
use whole::forms::choose;

// What the buzzer does once `stored` is stored in a word of timer 4, by its slot: nothing is stored yet, as that may be
// refused.
fn sound_after(
    slots: &[u32; 76],
    tone: Tone,
    clock: u32,
    full: bool,
    s: usize,
    stored: u32,
) -> Result<Option<Tone>, Refusal>
    requires { s < 76 }
    ensures { result ≡ sound_of slots.now tone clock full (slot_word s) stored }
{
    let control = choose(
        s == registers::SOUND_CONTROL_SLOT,
        stored,
        registers::own_reg(slots, map::SOUND_CONTROL),
    );
    let reload = choose(
        s == registers::SOUND_RELOAD_SLOT,
        stored,
        registers::own_reg(slots, map::SOUND_RELOAD),
    );
    let compare = choose(
        s == registers::SOUND_COMPARE_SLOT,
        stored,
        registers::own_reg(slots, map::SOUND_COMPARE),
    );
    timer::sound::sound_update(tone, full, clock, control, reload, compare)
}

// A word of timer 4 is stored, and the tone put, unless the event has no room.
pub(crate) fn sound_write(
    slots: &mut [u32; 76],
    cells: &Cells,
    floats: &mut Floats,
    clock: u32,
    full: bool,
    s: usize,
    stored: u32,
) -> Result<Accepted, Refusal>
    requires { s < 76 }
    ensures { (own_out slots.new (wrote_of (answer_of result)
        (parts_in cells.now floats.new).devices)
        ≡ sound_written slots.old (parts_in cells.now floats.old).devices
        (parts_in cells.now floats.old).devices clock full (slot_word s) stored)
        × Rest (answer_of result) cells.now floats.old cells.now floats.new }
{
    let tone = state::rests::tone_of(floats);
    let sounded = sound_after(slots, tone, clock, full, s, stored)?;
    registers::slot_set(slots, s, stored);
    let Some(next) = sounded else {
        return accepted();
    };
    put_tone(floats, next);
    Ok(Accepted { event: true })
}

// The control word of a timer, by its slot. It is stored without bit 15; timer 4's only where the buzzer's event has
// room.
pub(crate) fn timer_write_ctrl(
    slots: &mut [u32; 76],
    cells: &mut Cells,
    floats: &mut Floats,
    clock: u32,
    full: bool,
    s: usize,
    old: u32,
    new: u32,
) -> Result<Accepted, Refusal>
    requires { s < 76 }
    ensures { (own_out slots.new (wrote_of (answer_of result) (parts_in cells.new floats.new).devices)
        ≡ timer_written slots.old (parts_in cells.old
        floats.old).devices clock full (s / 8) (slot_word s) old new)
        × Rest (answer_of result) cells.old floats.old cells.new floats.new }
{
    let n = s / 8;
    let t = state::moments::timer_of(cells, floats, n);
    let times = state::moments::times_of(floats);
    let written = timer::write_ctrl(t, times.now, new, old);
    if n == map::SOUND_TIMER {
        let answer = sound_write(slots, cells, floats, clock, full, s, written.control)?;
        put_timer(cells, floats, map::SOUND_TIMER, written.timer);
        return Ok(answer);
    }
    registers::slot_set(slots, s, written.control);
    put_timer(cells, floats, n, written.timer);
    accepted()
}
