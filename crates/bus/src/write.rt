// Writes on the bus: slow_write and mmio_write, and the event that a write makes.
ghost use Rattle.std.specs.Prelude.{◌≡◌, false, ◌<◌};
ghost use Rattle.map.specs.Refusals.{number_of};
ghost use Rattle.memory.specs.Access.{merged_of};
ghost use Rattle.registers.specs.Words.{registers_of, word_at};
ghost use Rattle.registers.specs.Ports.{slot_of, slot_word};
ghost use Rattle.timer.specs.Events.{queue_of};
ghost use Rattle.state.specs.Bank.{parts_in};
ghost use Rattle.state.specs.Packed.{StaysPacked, Answered};
ghost use Rattle.state.specs.Parts.{ring_put};
ghost use Rattle.bus.specs.Answers.{answer_of};
ghost use Rattle.bus.specs.Bank.{world_of, out_of};
ghost use Rattle.bus.specs.Inner.{Rest, wrote_of, without_event};
ghost use Rattle.bus.specs.Sounds.{noted};
ghost use Rattle.bus.specs.Write.{stored, port_written, reg_written};
ghost use Rattle.bus.specs.Inner.{other_written, sized_put, sized_number};
ghost use Rattle.bus.specs.Write.{write_of, together, noted_write};

use crate::Accepted;
use crate::words::{accepted, field_of, store_word, tod_write, word_write};
use map::Refusal;
use memory::Place;
use registers::{Port, Spot};
use state::{Cells, Floats};
use timer::Event;

// A word in its own storage is written, by its slot: old is what it holds, new the merged word, part the bits that were
// written.
fn own_write(
    slots: &mut [u32; 76],
    addresses: &mut [u32; 256],
    values: &mut [u32; 256],
    rtc: &mut [u8; 256],
    page: &mut [u8; 256],
    cells: &mut Cells,
    floats: &mut Floats,
    ram: &mut [u8],
    sram: &[u8],
    gpio: &[u8],
    fb: &mut [u8],
    full: bool,
    s: usize,
    old: u32,
    new: u32,
    part: u32,
) -> Result<Accepted, Refusal>
    requires { s < 76 }
    ensures { (out_of (world_of slots.new addresses.new values.new
        rtc.new page.new
        ram.new sram.now gpio.now fb.new (parts_in cells.new
        floats.new)) (answer_of result)
        ≡ port_written (world_of slots.old addresses.old values.old rtc.old
        page.old
        ram.old sram.now gpio.now fb.old (parts_in cells.old
        floats.old))
        full (slot_word s) old new part)
        × Rest (answer_of result) cells.old floats.old cells.new floats.new }
{
    let port = registers::port_at(s);
    match port {
        Port::Select => {
            let chip = state::chips::chip_of(cells);
            let next = crate::chip::select_write(slots, page, ram, chip, new);
            state::chips::put_chip(cells, next);
            return accepted();
        }
        Port::Send => {
            let chip = state::chips::chip_of(cells);
            let next = crate::chip::send_write(slots, page, ram, chip, new);
            state::chips::put_sent(cells, next.rx, next.tx);
            return accepted();
        }
        Port::LcdControl => {
            crate::screen::lcd_write_ctrl(
                slots, addresses, values, cells, ram, sram, gpio, fb, new,
            );
            return accepted();
        }
        Port::RtcCommand => {
            let times = state::moments::times_of(floats);
            let latch = state::rests::latch_of(cells, floats);
            let next = crate::rtc::command_write(slots, rtc, latch, times.game, new);
            state::rests::put_latch(cells, floats, next);
            return accepted();
        }
        Port::Acts(effect) => {
            return word_write(slots, cells, floats, sram, full, effect, s, old, new, part);
        }
        Port::Shows(_) => {
            return store_word(slots, s, new);
        }
        Port::Holds => {
            return store_word(slots, s, new);
        }
        Port::Other => {
            return store_word(slots, s, new);
        }
    }
}

// A word that has no storage of its own is written: a field of the time of day, or one of the others.
fn other_write(
    slots: &[u32; 76],
    addresses: &mut [u32; 256],
    values: &mut [u32; 256],
    cells: &mut Cells,
    floats: &mut Floats,
    word: u32,
    addr: u32,
    size: u32,
    value: u32,
) -> Result<Accepted, Refusal>
    requires { slot_of word ≡ 76 }
    ensures { (stored (registers_of slots.now addresses.new values.new)
        (wrote_of (answer_of result) (parts_in cells.new floats.new).devices)
        ≡ other_written (registers_of slots.now addresses.old values.old)
        (parts_in cells.old floats.old).devices word
        (merged_of (word_at (registers_of slots.now addresses.old values.old) word)
        addr size value))
        × Rest (answer_of result) cells.old floats.old cells.new floats.new }
{
    if registers::day_word(word) {
        tod_write(
            cells,
            floats,
            field_of(word),
            memory::merged(0, addr, size, value),
        );
        return accepted();
    }
    let spot = registers::find_other(addresses, word);
    match spot {
        Spot::Own(_) => {
            return accepted();
        }
        Spot::Never => {
            return accepted();
        }
        Spot::Present(i) => {
            let old = registers::get(values, i);
            registers::put_present(addresses, values, i, memory::merged(old, addr, size, value));
            return accepted();
        }
        Spot::Absent(i) => {
            let new = memory::merged(0, addr, size, value);
            registers::put_absent(addresses, values, i, word, new)?;
            return accepted();
        }
    }
}

fn mmio_write(
    slots: &mut [u32; 76],
    addresses: &mut [u32; 256],
    values: &mut [u32; 256],
    rtc: &mut [u8; 256],
    page: &mut [u8; 256],
    cells: &mut Cells,
    floats: &mut Floats,
    ram: &mut [u8],
    sram: &[u8],
    gpio: &[u8],
    fb: &mut [u8],
    full: bool,
    addr: u32,
    size: u32,
    value: u32,
) -> Result<Accepted, Refusal>
    ensures { (out_of (world_of slots.new addresses.new values.new
        rtc.new page.new
        ram.new sram.now gpio.now fb.new (parts_in cells.new
        floats.new)) (answer_of result)
        ≡ reg_written (world_of slots.old addresses.old values.old rtc.old
        page.old
        ram.old sram.now gpio.now fb.old (parts_in cells.old
        floats.old))
        full addr size value)
        × Rest (answer_of result) cells.old floats.old cells.new floats.new }
{
    let word = addr - addr % 4;
    let s = registers::slot(word);
    if s < 76 {
        let old = registers::get(slots, s);
        let new = memory::merged(old, addr, size, value);
        let part = memory::written(addr, size, value);
        return own_write(
            slots, addresses, values, rtc, page, cells, floats, ram, sram, gpio, fb, full, s, old,
            new, part,
        );
    }
    other_write(
        slots, addresses, values, cells, floats, word, addr, size, value,
    )
}

// What an access writes to a memory. Size and refusal are decided together, so that a word takes two tests.
fn put(m: &mut [u8], at: usize, size: u32, value: u32) -> Result<Accepted, Refusal>
    ensures { (m.new ≡ sized_put m.old at size value) × (answer_of result ≡ without_event (sized_number size)) }
{
    if size > 2 {
        if size == 4 {
            memory::store(m, at, 4, value);
            return accepted();
        }
        return Err(Refusal::BadSize);
    }
    if size == 2 {
        memory::store(m, at, 2, value);
        return accepted();
    }
    if size == 1 {
        memory::store(m, at, 1, value);
        return accepted();
    }
    Err(Refusal::BadSize)
}

// A write to any address. `full` says that 256 sound events wait.
fn slow_write(
    slots: &mut [u32; 76],
    addresses: &mut [u32; 256],
    values: &mut [u32; 256],
    rtc: &mut [u8; 256],
    page: &mut [u8; 256],
    cells: &mut Cells,
    floats: &mut Floats,
    ram: &mut [u8],
    sram: &mut [u8],
    gpio: &mut [u8],
    fb: &mut [u8],
    full: bool,
    addr: u32,
    size: u32,
    value: u32,
) -> Result<Accepted, Refusal>
    ensures { (out_of (world_of slots.new addresses.new values.new
        rtc.new page.new
        ram.new sram.new gpio.new fb.new (parts_in cells.new
        floats.new)) (answer_of result)
        ≡ write_of (world_of slots.old addresses.old values.old rtc.old
        page.old
        ram.old sram.old gpio.old fb.old (parts_in cells.old
        floats.old))
        full addr size value)
        × Rest (answer_of result) cells.old floats.old cells.new floats.new }
{
    let place = memory::locate(addr);
    match place {
        Place::Ram(at) => {
            return put(ram, at, size, value);
        }
        Place::Sram(at) => {
            return put(sram, at, size, value);
        }
        Place::Gpio(at) => {
            return put(gpio, at, size, value);
        }
        Place::Register => {
            if !memory::good_size(size) {
                return Err(Refusal::BadSize);
            }
            return mmio_write(
                slots, addresses, values, rtc, page, cells, floats, ram, sram, gpio, fb, full,
                addr, size, value,
            );
        }
        Place::Stray => {
            if !memory::good_size(size) {
                return Err(Refusal::BadSize);
            }
            return Err(Refusal::StrayWrite);
        }
    }
}

// The event of a change: from the time on, the tone that the bank has.
fn note(
    onsets: &mut [f64; 256],
    frequencies: &mut [f64; 256],
    duties: &mut [f64; 256],
    cells: &mut Cells,
    floats: &Floats,
    event: bool,
)
    ensures { (queue_of onsets.new frequencies.new duties.new
        (parts_in cells.new floats.now).ring
        ≡ noted (queue_of onsets.old frequencies.old duties.old
        (parts_in cells.old floats.now).ring)
        (parts_in cells.old floats.now).devices event)
        × (parts_in cells.new floats.now
        ≡ ring_put (parts_in cells.old floats.now) (parts_in cells.new
        floats.now).ring)
        × StaysPacked cells.old floats.now cells.new floats.now
        × (event ≡ false → cells.new ≡ cells.old) }
{
    if event {
        let ring = state::rests::ring_of(cells);
        let times = state::moments::times_of(floats);
        let tone = state::rests::tone_of(floats);
        let event = Event {
            time: times.now,
            frequency: tone.frequency,
            duty: tone.duty,
        };
        let later = timer::events::put_in(onsets, frequencies, duties, ring, event);
        state::rests::put_ring(cells, later.unwrap_or(ring));
    }
}

// A write on the bus: the one function that every accepted write passes through, so that what later requests keep of
// writes has one place. The event that a write makes is put into the sound queue.
pub fn write(
    slots: &mut [u32; 76],
    addresses: &mut [u32; 256],
    values: &mut [u32; 256],
    rtc: &mut [u8; 256],
    page: &mut [u8; 256],
    onsets: &mut [f64; 256],
    frequencies: &mut [f64; 256],
    duties: &mut [f64; 256],
    cells: &mut Cells,
    floats: &mut Floats,
    ram: &mut [u8],
    sram: &mut [u8],
    gpio: &mut [u8],
    fb: &mut [u8],
    addr: u32,
    size: u32,
    value: u32,
) -> Result<Accepted, Refusal>
    ensures { (together
        (out_of (world_of slots.new addresses.new values.new rtc.new
        page.new
        ram.new sram.new gpio.new fb.new (parts_in cells.new
        floats.new)) (answer_of result))
        (queue_of onsets.new frequencies.new duties.new
        (parts_in cells.new floats.new).ring)
        ≡ noted_write
        (world_of slots.old addresses.old values.old rtc.old
        page.old
        ram.old sram.old gpio.old fb.old (parts_in cells.old
        floats.old))
        (queue_of onsets.old frequencies.old duties.old
        (parts_in cells.old floats.old).ring)
        addr size value)
        × ((parts_in cells.new floats.new).keys
        ≡ (parts_in cells.old floats.old).keys)
        × Answered (number_of result) cells.old floats.old cells.new floats.new }
{
    let ring = state::rests::ring_of(cells);
    let full = timer::events::full(ring);
    let answer = slow_write(
        slots, addresses, values, rtc, page, cells, floats, ram, sram, gpio, fb, full, addr, size,
        value,
    )?;
    note(onsets, frequencies, duties, cells, floats, answer.event);
    Ok(answer)
}
