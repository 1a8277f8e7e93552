// The words that reach no memory and no array but their own.
ghost use Rattle.std.specs.Prelude.{◌≡◌, ◌<◌, true, set};
ghost use Rattle.registers.specs.Ports.{slot_word, port_at, day_word, field_of};
ghost use Rattle.time.specs.Clocks.{clock_in};
ghost use Rattle.state.specs.Bank.{parts_in};
ghost use Rattle.state.specs.Packed.{StaysPacked};
ghost use Rattle.state.specs.Parts.{devices_put};
ghost use Rattle.bus.specs.Answers.{answer_of};
ghost use Rattle.bus.specs.Inner.{Only, Rest, wrote_of, without_event};
ghost use Rattle.bus.specs.Words.{spi_sent, adc_written, day_set, powered_by, word_written};
ghost use Rattle.bus.specs.World.{own_out, answer};

use crate::Accepted;
use crate::sounds::{sound_write, timer_write_ctrl};
use clock::Adc;
use map::Refusal;
use registers::{Effect, Port};
use state::{Cells, Floats};

// Which field of the time of day a word is: 0 seconds, 1 minutes, 2 hours.
pub(crate) fn field_of(word: u32) -> u32
    requires { day_word word ≡ true }
    ensures { result ≡ field_of word }
{
    (word - map::RTC_IRQ_BASE) / 4
}

pub(crate) fn accepted() -> Result<Accepted, Refusal>
    ensures { answer_of result ≡ without_event 0 }
{
    Ok(Accepted { event: false })
}

fn spi_sent(slots: &mut [u32; 76], new: u32)
    ensures { slots.new ≡ spi_sent slots.old new }
{
    registers::own_insert(slots, map::SPI2_SEND, new);
    registers::own_insert(slots, map::SPI2_ANSWER, map::SPI2_IDLE);
    let c = registers::own_reg(slots, map::SPI2_STATUS);
    registers::own_insert(slots, map::SPI2_STATUS, c | 1);
}

fn adc_write(slots: &mut [u32; 76], cells: &mut Cells, floats: &Floats, old: u32, new: u32)
    ensures { (own_out slots.new (answer 0 (parts_in cells.new floats.now).devices)
        ≡ adc_written slots.old (parts_in cells.old floats.now).devices old new)
        × Only (parts_in cells.old floats.now) (parts_in cells.new
        floats.now)
        × StaysPacked cells.old floats.now cells.new floats.now }
{
    let before = Adc {
        converting: state::moments::converting_of(cells),
        control: old,
        result: registers::own_reg(slots, map::ADC_RESULT),
    };
    let after = clock::convert::adc_write_ctrl(before, new);
    registers::own_insert(slots, map::ADC_CONTROL, after.control);
    state::moments::put_converting(cells, after.converting);
}

pub(crate) fn tod_write(cells: &mut Cells, floats: &mut Floats, field: u32, new: u32)
    ensures { (parts_in cells.new floats.new
        ≡ devices_put (parts_in cells.old floats.old)
        (day_set (parts_in cells.old floats.old).devices field new))
        × StaysPacked cells.old floats.old cells.new floats.new }
{
    let times = state::moments::times_of(floats);
    let irq = state::moments::irq_of(cells, floats);
    let next = clock::day::tod_write(irq, times.game, field, new);
    state::moments::put_irq(cells, floats, next);
}

fn power(cells: &mut Cells, floats: &Floats, new: u32)
    ensures { (parts_in cells.new floats.now
        ≡ devices_put (parts_in cells.old floats.now)
        (powered_by (parts_in cells.old floats.now).devices new))
        × StaysPacked cells.old floats.now cells.new floats.now }
{
    let off = state::rests::off_of(cells);
    state::rests::put_off(cells, off | (new & 1 == 0));
}

// A word is stored in its slot.
pub(crate) fn store_word(slots: &mut [u32; 76], s: usize, new: u32) -> Result<Accepted, Refusal>
    ensures { (slots.new ≡ set slots.old s new) × (answer_of result ≡ without_event 0) }
{
    registers::slot_set(slots, s, new);
    accepted()
}

// A word that acts and reaches no memory and no array but its own, by its slot: old is what it holds, new the merged
// word, part the bits that were written.
pub(crate) fn word_write(
    slots: &mut [u32; 76],
    cells: &mut Cells,
    floats: &mut Floats,
    sram: &[u8],
    full: bool,
    effect: Effect,
    s: usize,
    old: u32,
    new: u32,
    part: u32,
) -> Result<Accepted, Refusal>
    requires { (s < 76) × (port_at s ≡ Port.Acts effect) }
    ensures { (own_out slots.new (wrote_of (answer_of result) (parts_in cells.new floats.new).devices)
        ≡ word_written effect slots.old (parts_in cells.old
        floats.old).devices (clock_in sram.now) full (slot_word s) old new part)
        × Rest (answer_of result) cells.old floats.old cells.new floats.new }
{
    match effect {
        Effect::TimerControl => {
            let clock = time::sysclk_var(sram);
            return timer_write_ctrl(slots, cells, floats, clock, full, s, old, new);
        }
        // The time of day has no slot.
        Effect::DayField => {
            return accepted();
        }
        Effect::Sound => {
            let clock = time::sysclk_var(sram);
            return sound_write(slots, cells, floats, clock, full, s, new);
        }
        Effect::LcdStatus => {
            return store_word(slots, s, old & (new ^ 0xFFFF_FFFF));
        }
        Effect::Tick => {
            return store_word(slots, s, old & (part ^ 0xFFFF_FFFF));
        }
        Effect::AdcControl => {
            adc_write(slots, cells, floats, old, new);
            return accepted();
        }
        Effect::Power => {
            power(cells, floats, new);
            return store_word(slots, s, new);
        }
        Effect::SpiSend => {
            spi_sent(slots, new);
            return accepted();
        }
    }
}
