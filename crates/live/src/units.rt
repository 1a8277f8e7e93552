// A unit as a whole: fresh, and wiped.
ghost use Rattle.std.specs.Prelude.{◌≡◌};
ghost use Rattle.state.specs.Bank.{parts_in};
ghost use Rattle.state.specs.Packed.{cells_of, floats_of};
ghost use Rattle.system.specs.System.{fresh_system};
ghost use Rattle.system.specs.Bank.{fresh_parts, state_in, machine_of};
ghost use Rattle.system.specs.Steps as steps;
ghost use Rattle.system.specs.Steps.{plainly};
ghost use Rattle.live.specs.Live.{called, Zeroed};

use script::{BAD_MEMORY, DONE, bad_memory};
use state::{Cells, Floats};

// The fresh state, whatever the arrays held; every word is set.
pub fn tg18_lent_fresh(
    slots: &mut [u32; 76],
    addresses: &mut [u32; 256],
    values: &mut [u32; 256],
    rtc: &mut [u8; 256],
    page: &mut [u8; 256],
    onsets: &mut [f64; 256],
    frequencies: &mut [f64; 256],
    duties: &mut [f64; 256],
    starts: &mut [f64; 64],
    codes: &mut [u8; 64],
    cells: &mut Cells,
    floats: &mut Floats,
)
    ensures { (state_in slots.new addresses.new values.new rtc.new
        page.new onsets.new frequencies.new duties.new starts.new
        codes.new (parts_in cells.new floats.new)
        ≡ fresh_system)
        × (cells.new ≡ cells_of fresh_parts) × (floats.new ≡ floats_of fresh_parts) }
{
    system::wipe::reset(
        slots,
        addresses,
        values,
        rtc,
        page,
        onsets,
        frequencies,
        duties,
        starts,
        codes,
        cells,
        floats,
    );
}

// The fresh state, and the memories zero.
pub fn tg18_lent_wipe(
    slots: &mut [u32; 76],
    addresses: &mut [u32; 256],
    values: &mut [u32; 256],
    rtc: &mut [u8; 256],
    page: &mut [u8; 256],
    onsets: &mut [f64; 256],
    frequencies: &mut [f64; 256],
    duties: &mut [f64; 256],
    starts: &mut [f64; 64],
    codes: &mut [u8; 64],
    cells: &mut Cells,
    floats: &mut Floats,
    ram: &mut [u8],
    sram: &mut [u8],
    gpio: &mut [u8],
    fb: &mut [u8],
) -> u32
    ensures { (plainly (machine_of slots.new addresses.new values.new
        rtc.new page.new onsets.new frequencies.new duties.new
        starts.new codes.new (parts_in cells.new floats.new) ram.new
        sram.new gpio.new fb.new) result
        ≡ called (machine_of slots.old addresses.old values.old rtc.old
        page.old onsets.old frequencies.old duties.old
        starts.old codes.old (parts_in cells.old floats.old)
        ram.old sram.old gpio.old fb.old) steps.wipe)
        × Zeroed result cells.old floats.old cells.new floats.new }
{
    if bad_memory(ram, sram, gpio, fb) {
        return BAD_MEMORY;
    }
    system::wipe::wipe_all(
        slots,
        addresses,
        values,
        rtc,
        page,
        onsets,
        frequencies,
        duties,
        starts,
        codes,
        cells,
        floats,
        ram,
        sram,
        gpio,
        fb,
    );
    DONE
}
