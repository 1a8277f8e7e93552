// Reads on the bus: slow_read and mmio_read.
ghost use Rattle.std.specs.Prelude.{◌≡◌, ◌<◌, get_or};
ghost use Rattle.map.specs.Numbers.{TIMER_COUNT};
ghost use Rattle.memory.specs.Bytes.{loaded};
ghost use Rattle.registers.specs.Words.{registers_of};
ghost use Rattle.registers.specs.Ports.{slot_of, slot_word, port_at};
ghost use Rattle.time.specs.Clocks.{clock_in};
ghost use Rattle.state.specs.Bank.{parts_in};
ghost use Rattle.bus.specs.Read.{status_of, base_of, day_read, timer_read, counter_read, acting_value, view_of};
ghost use Rattle.bus.specs.Read.{word_read};
ghost use Rattle.bus.specs.Answers.{got_of};
ghost use Rattle.bus.specs.Read.{got, given, reg_read, read_of};
ghost use Rattle.bus.specs.Inner.{other_value, sized_got};

use crate::words::field_of;
use map::Refusal;
use memory::Place;
use registers::{Effect, Port, View};
use state::{Cells, Floats};
use whole::forms::choose;

fn clock_status(slots: &[u32; 76]) -> u32
    ensures { result ≡ status_of slots.now }
{
    choose(
        registers::own_reg(slots, map::CLOCK_SWITCH) & 0x8000 != 0,
        2,
        1,
    )
}

fn tod_read(cells: &Cells, floats: &Floats, field: u32) -> u32
    ensures { result ≡ day_read (parts_in cells.now floats.now).devices.clocks field }
{
    let times = state::moments::times_of(floats);
    let irq = state::moments::irq_of(cells, floats);
    (clock::day::tod_read(irq, times.game, field) % 0x1_0000_0000) as u32
}

fn timer_read(cells: &Cells, floats: &Floats, n: usize, old: u32) -> u32
    ensures { result ≡ timer_read (parts_in cells.now floats.now).devices.clocks n old }
{
    let t = state::moments::timer_of(cells, floats, n);
    timer::read_ctrl(t, old)
}

// The control word of a timer.
fn base_of(n: usize) -> u32
    requires { n < TIMER_COUNT }
    ensures { result ≡ base_of n }
{
    map::TIMER_BASE + (n as u32) * map::TIMER_STEP
}

fn counter_read(
    slots: &[u32; 76],
    cells: &Cells,
    floats: &Floats,
    clock: u32,
    n: usize,
    old: u32,
) -> u32
    requires { n < TIMER_COUNT }
    ensures { result ≡ counter_read slots.now (parts_in cells.now
        floats.now).devices.clocks clock n old }
{
    let t = state::moments::timer_of(cells, floats, n);
    let times = state::moments::times_of(floats);
    let base = base_of(n);
    let control = registers::own_reg(slots, base);
    let reload = registers::own_reg(slots, base + 8);
    timer::counter(t, times.now, clock, control, reload, old)
}

// What a word reads as that shows something else than what is stored, by its slot; old is what it holds. Reading the
// answer of the second SPI clears three bits beside it.
fn view_of(
    slots: &mut [u32; 76],
    cells: &Cells,
    floats: &Floats,
    sram: &[u8],
    view: View,
    s: usize,
    old: u32,
) -> u32
    requires { (s < 76) × (port_at s ≡ Port.Shows view) }
    ensures { given slots.new result
        ≡ view_of view slots.old (parts_in cells.now
        floats.now).devices (clock_in sram.now) (slot_word s) old }
{
    match view {
        View::TimerCounter => {
            let clock = time::sysclk_var(sram);
            return counter_read(slots, cells, floats, clock, s / 8, old);
        }
        View::SpiAnswer => {
            let c = registers::own_reg(slots, map::SPI2_STATUS);
            registers::own_insert(slots, map::SPI2_STATUS, c & 0xFFFF_FFF8);
            return old;
        }
        View::RtcReady => {
            return 1;
        }
        View::RtcOut => {
            return state::rests::out_of(cells);
        }
        View::FlashStatus => {
            return old & 0xFFFF_FFF7;
        }
        View::FlashAnswer => {
            let rx = state::chips::rx_of(cells);
            return rx as u32;
        }
        View::ClockStatus => {
            return clock_status(slots);
        }
        View::Pending => {
            return time::irq::pending_irq(slots, cells);
        }
        View::PendingFiq => {
            return 0;
        }
    }
}

// The same of one that acts when it is written.
fn acting_value(cells: &Cells, floats: &Floats, effect: Effect, s: usize, old: u32) -> u32
    requires { (s < 76) × (port_at s ≡ Port.Acts effect) }
    ensures { result ≡ acting_value effect (parts_in cells.now floats.now).devices.clocks
        (slot_word s) old }
{
    match effect {
        Effect::TimerControl => {
            return timer_read(cells, floats, s / 8, old);
        }
        Effect::DayField => {
            return old;
        }
        Effect::Sound => {
            return old;
        }
        Effect::LcdStatus => {
            return old;
        }
        Effect::Tick => {
            return old;
        }
        Effect::AdcControl => {
            return old;
        }
        Effect::Power => {
            return old;
        }
        Effect::SpiSend => {
            return old;
        }
    }
}

// What a word in its own storage reads as, before shifting.
fn own_value(slots: &mut [u32; 76], cells: &Cells, floats: &Floats, sram: &[u8], s: usize) -> u32
    requires { s < 76 }
    ensures { given slots.new result
        ≡ word_read slots.old (parts_in cells.now floats.now).devices
        (clock_in sram.now) (slot_word s) (get_or slots.old s 0) }
{
    let old = registers::get(slots, s);
    let port = registers::port_at(s);
    match port {
        Port::Acts(effect) => {
            return acting_value(cells, floats, effect, s, old);
        }
        Port::Shows(view) => {
            return view_of(slots, cells, floats, sram, view, s, old);
        }
        Port::Select => {
            return old;
        }
        Port::Send => {
            return old;
        }
        Port::LcdControl => {
            return old;
        }
        Port::RtcCommand => {
            return old;
        }
        Port::Holds => {
            return old;
        }
        Port::Other => {
            return old;
        }
    }
}

// The same of a word that has none: a field of the time of day, or one of the others.
fn other_value(
    slots: &[u32; 76],
    addresses: &[u32; 256],
    values: &[u32; 256],
    cells: &Cells,
    floats: &Floats,
    word: u32,
) -> u32
    requires { slot_of word ≡ 76 }
    ensures { result
        ≡ other_value (registers_of slots.now addresses.now values.now)
        (parts_in cells.now floats.now).devices.clocks word }
{
    if registers::day_word(word) {
        return tod_read(cells, floats, field_of(word));
    }
    let spot = registers::find_other(addresses, word);
    registers::word_in(slots, values, spot)
}

fn mmio_read(
    slots: &mut [u32; 76],
    addresses: &[u32; 256],
    values: &[u32; 256],
    cells: &Cells,
    floats: &Floats,
    sram: &[u8],
    addr: u32,
    size: u32,
) -> u32
    ensures { given slots.new result
        ≡ reg_read (registers_of slots.old addresses.now values.now) sram.now
        (parts_in cells.now floats.now).devices addr size }
{
    let word = addr - addr % 4;
    let s = registers::slot(word);
    if s < 76 {
        let value = own_value(slots, cells, floats, sram, s);
        return memory::cut(value, addr, size);
    }
    let value = other_value(slots, addresses, values, cells, floats, word);
    memory::cut(value, addr, size)
}

// What an access reads of a memory. Size and refusal are decided together, so that a word takes two tests.
fn get(m: &[u8], at: usize, size: u32) -> Result<u32, Refusal>
    ensures { got_of result ≡ sized_got size (loaded m.now at size) }
{
    if size > 2 {
        if size == 4 {
            return Ok(memory::load(m, at, 4));
        }
        return Err(Refusal::BadSize);
    }
    if size == 2 {
        return Ok(memory::load(m, at, 2));
    }
    if size == 1 {
        return Ok(memory::load(m, at, 1));
    }
    Err(Refusal::BadSize)
}

pub fn read(
    slots: &mut [u32; 76],
    addresses: &[u32; 256],
    values: &[u32; 256],
    cells: &Cells,
    floats: &Floats,
    ram: &[u8],
    sram: &[u8],
    gpio: &[u8],
    addr: u32,
    size: u32,
) -> Result<u32, Refusal>
    ensures { got slots.new (got_of result)
        ≡ read_of (registers_of slots.old addresses.now values.now)
        ram.now sram.now gpio.now (parts_in cells.now
        floats.now).devices addr size }
{
    let place = memory::locate(addr);
    match place {
        Place::Ram(at) => get(ram, at, size),
        Place::Sram(at) => get(sram, at, size),
        Place::Gpio(at) => get(gpio, at, size),
        Place::Register => {
            if !memory::good_size(size) {
                return Err(Refusal::BadSize);
            }
            let value = mmio_read(slots, addresses, values, cells, floats, sram, addr, size);
            Ok(value)
        }
        Place::Stray => {
            if !memory::good_size(size) {
                return Err(Refusal::BadSize);
            }
            Ok(0)
        }
    }
}
