// The wipe: the fresh state, and all four memories zero.
ghost use Rattle.std.specs.Prelude.{◌≡◌, length};
ghost use Rattle.state.specs.Bank.{parts_in};
ghost use Rattle.state.specs.Packed.{cells_of, floats_of};
ghost use Rattle.time.specs.Clocks.{fresh_clocks};
ghost use Rattle.system.specs.System.{machine, fresh_system};
ghost use Rattle.system.specs.Calls.{wiped_of};
ghost use Rattle.system.specs.Bank.{fresh_parts, state_in, machine_of};

use crate::{Presses, System};
use flash::Mode;
use registers::Registers;
use state::{CELLS, Cells, Clocks, Devices, FLOATS, Floats, Parts};
use timer::{Queue, Ring};

fn fresh_clocks() -> Clocks
    ensures { result ≡ fresh_clocks }
{
    Clocks {
        times: clock::pace::fresh(),
        timers: [timer::fresh(); 6],
        irq: clock::day::fresh(),
        vsync: 0,
        converting: false,
    }
}

// What the state holds beside arrays after a wipe. The flash is in the Rust's mode.
fn fresh_parts() -> Parts
    ensures { result ≡ fresh_parts }
{
    Parts {
        devices: Devices {
            flash: flash::SpiFlash::new().chip,
            panel: panel::fresh(),
            clocks: fresh_clocks(),
            latch: clock::chip::fresh().latch,
            tone: timer::sound::silent(),
            off: false,
        },
        ring: Ring { head: 0, count: 0 },
        keys: keys::fresh(),
    }
}

// The fresh state over lent arrays. Every word is set, whatever stood there.
pub fn reset(
    slots: &mut [u32; 76],
    addresses: &mut [u32; 256],
    values: &mut [u32; 256],
    rtc: &mut [u8; 256],
    page: &mut [u8; 256],
    onsets: &mut [f64; 256],
    frequencies: &mut [f64; 256],
    duties: &mut [f64; 256],
    starts: &mut [f64; 64],
    codes: &mut [u8; 64],
    cells: &mut Cells,
    floats: &mut Floats,
)
    ensures { (state_in slots.new addresses.new values.new rtc.new
        page.new onsets.new frequencies.new duties.new starts.new
        codes.new (parts_in cells.new floats.new)
        ≡ fresh_system) × (cells.new ≡ cells_of fresh_parts) × (floats.new ≡ floats_of fresh_parts) }
{
    registers::clear(slots, addresses, values);
    let regs = clock::chip::fresh().regs;
    *rtc = regs;
    flash::made(Mode::Rust, page);
    timer::events::empty_in(onsets, frequencies, duties);
    keys::clear(starts, codes);
    state::wholes::put_parts(cells, floats, fresh_parts());
}

// The fresh state, and the memories zero, over lent arrays.
pub fn wipe_all(
    slots: &mut [u32; 76],
    addresses: &mut [u32; 256],
    values: &mut [u32; 256],
    rtc: &mut [u8; 256],
    page: &mut [u8; 256],
    onsets: &mut [f64; 256],
    frequencies: &mut [f64; 256],
    duties: &mut [f64; 256],
    starts: &mut [f64; 64],
    codes: &mut [u8; 64],
    cells: &mut Cells,
    floats: &mut Floats,
    ram: &mut [u8],
    sram: &mut [u8],
    gpio: &mut [u8],
    fb: &mut [u8],
)
    ensures { (machine_of slots.new addresses.new values.new rtc.new
        page.new onsets.new frequencies.new duties.new starts.new
        codes.new (parts_in cells.new floats.new) ram.new sram.new
        gpio.new fb.new
        ≡ wiped_of (length ram.old) (length sram.old) (length gpio.old)
        (length fb.old))
        × (cells.new ≡ cells_of fresh_parts) × (floats.new ≡ floats_of fresh_parts) }
{
    ram.fill(0);
    sram.fill(0);
    gpio.fill(0);
    fb.fill(0);
    reset(
        slots,
        addresses,
        values,
        rtc,
        page,
        onsets,
        frequencies,
        duties,
        starts,
        codes,
        cells,
        floats,
    );
}

// The state as it is after a wipe.
pub fn fresh() -> System
    ensures { result ≡ fresh_system }
{
    let mut slots = [0; 76];
    let mut addresses = [0; 256];
    let mut values = [0; 256];
    let mut rtc = [0; 256];
    let mut page = [0; 256];
    let mut onsets = [0.0; 256];
    let mut frequencies = [0.0; 256];
    let mut duties = [0.0; 256];
    let mut starts = [0.0; 64];
    let mut codes = [0; 64];
    let mut cells = [0; CELLS];
    let mut floats = [0.0; FLOATS];
    reset(
        &mut slots,
        &mut addresses,
        &mut values,
        &mut rtc,
        &mut page,
        &mut onsets,
        &mut frequencies,
        &mut duties,
        &mut starts,
        &mut codes,
        &mut cells,
        &mut floats,
    );
    let parts = state::wholes::parts_of(&cells, &floats);
    System {
        registers: Registers {
            slots,
            addresses,
            values,
        },
        rtc,
        page,
        devices: parts.devices,
        queue: Queue {
            onsets,
            frequencies,
            duties,
            ring: parts.ring,
        },
        presses: Presses { starts, codes },
        keys: parts.keys,
    }
}

pub fn wipe(ram: &mut [u8], sram: &mut [u8], gpio: &mut [u8], fb: &mut [u8]) -> System
    ensures { machine result ram.new sram.new gpio.new fb.new
        ≡ wiped_of (length ram.old) (length sram.old) (length gpio.old)
        (length fb.old) }
{
    ram.fill(0);
    sram.fill(0);
    gpio.fill(0);
    fb.fill(0);
    fresh()
}
