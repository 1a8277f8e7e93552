// One step of a script: what it does, by its kind.
ghost use Rattle.std.specs.Prelude.{◌≡◌, List, Float};
ghost use Rattle.map.specs.Refusals.{number_of, value_or};
ghost use Rattle.whole.specs.Forms.{bits_of, nought};
ghost use Rattle.timer.specs.Events.{nothing};
ghost use Rattle.state.specs.Bank.{devices_in, parts_in};
ghost use Rattle.state.specs.Packed.{StaysPacked};
ghost use Rattle.system.specs.Bank.{machine_of};
ghost use Rattle.entries.specs.Answers.{reply};
ghost use Rattle.entries.specs.Inner.{sound_reply, counters_reply, colour_reply};
ghost use Rattle.entries.specs.Turn.{run_state, after_step};

use crate::replies::{lay, numbers, plain};
use crate::{Answer, Entry};
use map::Refusal;
use panel::Colours;
use state::{Cells, Floats};
use timer::Event;
use whole::forms::bits_of;
use whole::limits::Bits;

fn word(got: Result<u32, Refusal>) -> Answer
    ensures { result ≡ reply (number_of got) (value_or got 0) 0 0 }
{
    match got {
        Ok(word) => numbers(map::DONE, word as u64, 0, 0),
        Err(_) => plain(got),
    }
}

fn moment(next: Result<f64, Refusal>) -> Answer
    ensures { result ≡ reply (number_of next) (bits_of (value_or next nought)) 0 0 }
{
    match next {
        Ok(time) => numbers(map::DONE, bits_of(time), 0, 0),
        Err(_) => plain(next),
    }
}

fn sound(waited: Result<Event, Refusal>) -> Answer
    ensures { result ≡ sound_reply (number_of waited) (value_or waited nothing) }
{
    match waited {
        Ok(event) => numbers(
            map::DONE,
            bits_of(event.time),
            bits_of(event.frequency),
            bits_of(event.duty),
        ),
        Err(refusal) => plain::<()>(Err(refusal)),
    }
}

fn counters(cells: &Cells) -> Answer
    ensures { (f : List Float) → result ≡ counters_reply (devices_in cells.now f) }
{
    let frames = state::panels::frames_of(cells);
    let writes = state::chips::writes_of(cells);
    let off = state::rests::off_of(cells);
    numbers(map::DONE, frames, writes, u64::from(off))
}

fn colour(c: Colours) -> Answer
    ensures { result ≡ colour_reply c }
{
    let word = c.r as u64 * 65536 + c.g as u64 * 256 + c.b as u64;
    numbers(map::DONE, word, 0, 0)
}

// An arm for each kind of step, which lays its answer at a place in the output: what an answer has none of is then
// stored as it is, and no arm hands four numbers on. The kinds are patterns, so here and nowhere else they are spelled
// as numbers.
pub fn act(
    slots: &mut [u32; 76],
    addresses: &mut [u32; 256],
    values: &mut [u32; 256],
    rtc: &mut [u8; 256],
    page: &mut [u8; 256],
    onsets: &mut [f64; 256],
    frequencies: &mut [f64; 256],
    duties: &mut [f64; 256],
    starts: &mut [f64; 64],
    codes: &mut [u8; 64],
    cells: &mut Cells,
    floats: &mut Floats,
    ram: &mut [u8],
    sram: &mut [u8],
    gpio: &mut [u8],
    fb: &mut [u8],
    e: Entry,
    out: &mut [u8],
    to: usize,
)
    ensures { (run_state
        (machine_of slots.new addresses.new values.new rtc.new page.new
        onsets.new frequencies.new duties.new starts.new codes.new
        (parts_in cells.new floats.new)
        ram.new sram.new gpio.new fb.new) out.new
        ≡ after_step
        (run_state
        (machine_of slots.old addresses.old values.old rtc.old
        page.old
        onsets.old frequencies.old duties.old starts.old
        codes.old
        (parts_in cells.old floats.old)
        ram.old sram.old gpio.old fb.old) out.old)
        to e)
        × StaysPacked cells.old floats.old cells.new floats.new }
{
    let kind = e.kind;
    match kind {
        1 => {
            let got = bus::read::read(
                slots, addresses, values, cells, floats, ram, sram, gpio, e.address, e.size,
            );
            lay(out, to, word(got));
        }
        2 => {
            let written = bus::write::write(
                slots,
                addresses,
                values,
                rtc,
                page,
                onsets,
                frequencies,
                duties,
                cells,
                floats,
                ram,
                sram,
                gpio,
                fb,
                e.address,
                e.size,
                (e.value % 0x1_0000_0000) as u32,
            );
            lay(out, to, plain(written));
        }
        3 => {
            let advanced = time::advancing::advance(
                slots,
                cells,
                floats,
                sram,
                gpio,
                starts,
                codes,
                Bits(e.value),
            );
            lay(out, to, plain(advanced));
        }
        4 => {
            let next = time::next::next_event(slots, cells, floats, sram, starts);
            lay(out, to, moment(next));
        }
        5 => {
            let n = time::irq::pending_irq(slots, cells);
            lay(out, to, numbers(map::DONE, n as u64, 0, 0));
        }
        6 => {
            let paced = time::pace::set_turbo(floats, Bits(e.value));
            lay(out, to, plain(paced));
        }
        7 => {
            let changed = time::buttons::set_live(cells, floats, e.address, e.value != 0);
            lay(out, to, plain(changed));
        }
        8 => {
            let held = time::buttons::hold_until(cells, floats, e.address, Bits(e.value));
            lay(out, to, plain(held));
        }
        9 => {
            let waited = time::tones::take_event(onsets, frequencies, duties, cells);
            lay(out, to, sound(waited));
        }
        10 => {
            lay(out, to, counters(cells));
        }
        11 => {
            let colours = panel::colour::at(fb, e.address);
            lay(out, to, colour(colours));
        }
        12 => {
            system::wipe::wipe_all(
                slots,
                addresses,
                values,
                rtc,
                page,
                onsets,
                frequencies,
                duties,
                starts,
                codes,
                cells,
                floats,
                ram,
                sram,
                gpio,
                fb,
            );
            lay(out, to, plain::<()>(Ok(())));
        }
        _ => {
            lay(out, to, plain::<()>(Err(Refusal::BadScript)));
        }
    }
}
