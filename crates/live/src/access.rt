// Reads and writes on the bus, and bytes of it without side effects.
ghost use Rattle.std.specs.Prelude.{◌≡◌, List, ℕ, Float};
ghost use Rattle.state.specs.Bank.{parts_in};
ghost use Rattle.state.specs.Packed.{Answered};
ghost use Rattle.system.specs.Bank.{machine_of};
ghost use Rattle.system.specs.Steps as steps;
ghost use Rattle.system.specs.Steps.{words, plainly};
ghost use Rattle.live.specs.Live.{only, called, block_seen, block_of};

use block::Seen;
use script::{BAD_MEMORY, DONE, bad_memory};
use state::{Cells, Floats};

// A read; some registers change by it.
pub fn tg18_lent_read(
    slots: &mut [u32; 76],
    addresses: &[u32; 256],
    values: &[u32; 256],
    cells: &Cells,
    floats: &Floats,
    ram: &[u8],
    sram: &[u8],
    gpio: &[u8],
    fb: &[u8],
    address: u32,
    size: u32,
    value: &mut [u32; 1],
) -> u32
    ensures { (rtc page : List ℕ) (onsets frequencies duties starts : List Float) (codes : List ℕ) →
        words (machine_of slots.new addresses.now values.now rtc page onsets frequencies
        duties starts codes (parts_in cells.now floats.now) ram.now sram.now
        gpio.now fb.now) result (only value.new) 0 0
        ≡ called (machine_of slots.old addresses.now values.now rtc page onsets
        frequencies duties starts codes (parts_in cells.now floats.now) ram.now
        sram.now gpio.now fb.now) (steps.read address size) }
{
    if bad_memory(ram, sram, gpio, fb) {
        *value = [0];
        return BAD_MEMORY;
    }
    let got = bus::read::read(
        slots, addresses, values, cells, floats, ram, sram, gpio, address, size,
    );
    *value = [got.unwrap_or(0)];
    map::status(got)
}

// A write.
pub fn tg18_lent_write(
    slots: &mut [u32; 76],
    addresses: &mut [u32; 256],
    values: &mut [u32; 256],
    rtc: &mut [u8; 256],
    page: &mut [u8; 256],
    onsets: &mut [f64; 256],
    frequencies: &mut [f64; 256],
    duties: &mut [f64; 256],
    cells: &mut Cells,
    floats: &mut Floats,
    ram: &mut [u8],
    sram: &mut [u8],
    gpio: &mut [u8],
    fb: &mut [u8],
    address: u32,
    size: u32,
    value: u32,
) -> u32
    ensures { (starts : List Float) (codes : List ℕ) →
        (plainly (machine_of slots.new addresses.new values.new rtc.new
        page.new onsets.new frequencies.new duties.new starts codes (parts_in
        cells.new floats.new) ram.new sram.new gpio.new
        fb.new) result
        ≡ called (machine_of slots.old addresses.old values.old rtc.old
        page.old onsets.old frequencies.old duties.old starts codes
        (parts_in cells.old floats.old) ram.old sram.old gpio.old
        fb.old) (steps.write address size value))
        × Answered result cells.old floats.old cells.new floats.new }
{
    if bad_memory(ram, sram, gpio, fb) {
        return BAD_MEMORY;
    }
    let answer = bus::write::write(
        slots,
        addresses,
        values,
        rtc,
        page,
        onsets,
        frequencies,
        duties,
        cells,
        floats,
        ram,
        sram,
        gpio,
        fb,
        address,
        size,
        value,
    );
    map::status(answer)
}

// The memory byte, the stored register byte or 0 at an address.
pub fn tg18_lent_peek8(
    slots: &[u32; 76],
    addresses: &[u32; 256],
    values: &[u32; 256],
    ram: &[u8],
    sram: &[u8],
    gpio: &[u8],
    fb: &[u8],
    address: u32,
    value: &mut [u8; 1],
) -> u32
    ensures { (rtc page : List ℕ) (onsets frequencies duties starts : List Float) (codes l : List ℕ)
        (f : List Float) →
        words (machine_of slots.now addresses.now values.now rtc page onsets
        frequencies duties starts codes (parts_in l f) ram.now sram.now gpio.now
        fb.now) result (only value.new) 0 0
        ≡ called (machine_of slots.now addresses.now values.now rtc page onsets
        frequencies duties starts codes (parts_in l f) ram.now sram.now gpio.now
        fb.now) (steps.peek8 address) }
{
    if bad_memory(ram, sram, gpio, fb) {
        *value = [0];
        return BAD_MEMORY;
    }
    let seen = Seen {
        slots,
        addresses,
        values,
        ram,
        sram,
        gpio,
    };
    *value = [seen.peek8(address)];
    DONE
}

// Four of them, the lowest first.
pub fn tg18_lent_peek32(
    slots: &[u32; 76],
    addresses: &[u32; 256],
    values: &[u32; 256],
    ram: &[u8],
    sram: &[u8],
    gpio: &[u8],
    fb: &[u8],
    address: u32,
    value: &mut [u32; 1],
) -> u32
    ensures { (rtc page : List ℕ) (onsets frequencies duties starts : List Float) (codes l : List ℕ)
        (f : List Float) →
        words (machine_of slots.now addresses.now values.now rtc page onsets
        frequencies duties starts codes (parts_in l f) ram.now sram.now gpio.now
        fb.now) result (only value.new) 0 0
        ≡ called (machine_of slots.now addresses.now values.now rtc page onsets
        frequencies duties starts codes (parts_in l f) ram.now sram.now gpio.now
        fb.now) (steps.peek32 address) }
{
    if bad_memory(ram, sram, gpio, fb) {
        *value = [0];
        return BAD_MEMORY;
    }
    let seen = Seen {
        slots,
        addresses,
        values,
        ram,
        sram,
        gpio,
    };
    *value = [seen.peek32(address)];
    DONE
}

// Bytes laid into memories; those that fall elsewhere are dropped.
pub fn tg18_lent_poke(
    ram: &mut [u8],
    sram: &mut [u8],
    gpio: &mut [u8],
    fb: &[u8],
    address: u32,
    bytes: &[u8],
) -> u32
    ensures { (slots addresses values rtc page : List ℕ) (onsets frequencies duties starts : List Float)
        (codes l : List ℕ) (f : List Float) →
        plainly (machine_of slots addresses values rtc page onsets frequencies duties starts codes (parts_in l f)
        ram.new sram.new gpio.new fb.now) result
        ≡ called (machine_of slots addresses values rtc page onsets frequencies duties starts codes (parts_in l f)
        ram.old sram.old gpio.old fb.now) (steps.poke address
        bytes.now) }
{
    if bad_memory(ram, sram, gpio, fb) {
        return BAD_MEMORY;
    }
    block::poke(ram, sram, gpio, address, bytes);
    DONE
}

// A block of the bus; `whole` is 1 where it lies in one memory, or in one page of stray space.
pub fn tg18_lent_read_block(
    slots: &[u32; 76],
    addresses: &[u32; 256],
    values: &[u32; 256],
    ram: &[u8],
    sram: &[u8],
    gpio: &[u8],
    fb: &[u8],
    address: u32,
    bytes: &mut [u8],
    whole: &mut [u32; 1],
) -> u32
    ensures { (rtc page : List ℕ) (onsets frequencies duties starts : List Float) (codes l : List ℕ)
        (f : List Float) →
        block_seen result (only whole.new) bytes.new
        ≡ block_of (machine_of slots.now addresses.now values.now rtc page onsets
        frequencies duties starts codes (parts_in l f) ram.now sram.now gpio.now
        fb.now) address bytes.old }
{
    if bad_memory(ram, sram, gpio, fb) {
        *whole = [0];
        return BAD_MEMORY;
    }
    let seen = Seen {
        slots,
        addresses,
        values,
        ram,
        sram,
        gpio,
    };
    *whole = [u32::from(seen.read_block(address, bytes))];
    DONE
}
