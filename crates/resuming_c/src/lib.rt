// The entry for C of crate resuming: each function has its clauses again and calls it.
#![tactic(auto)]

ghost use Rattle.std.specs.Prelude.{◌≡◌};
ghost use Rattle.state.specs.Bank.{parts_in};
ghost use Rattle.system.specs.System.{left};
ghost use Rattle.system.specs.Bank.{machine_of};
ghost use Rattle.session.specs.Session.{resume_of, Words};

use state::{Cells, Floats};

// Reads a session into the unit, or refuses it and changes nothing.
#[unsafe(no_mangle)]
pub extern "C" fn tg18_lent_resume(
    slots: &mut [u32; 76],
    addresses: &mut [u32; 256],
    values: &mut [u32; 256],
    rtc: &mut [u8; 256],
    page: &mut [u8; 256],
    onsets: &mut [f64; 256],
    frequencies: &mut [f64; 256],
    duties: &mut [f64; 256],
    starts: &mut [f64; 64],
    codes: &mut [u8; 64],
    cells: &mut Cells,
    floats: &mut Floats,
    ram: &mut [u8],
    sram: &mut [u8],
    gpio: &mut [u8],
    fb: &mut [u8],
    saved: &[u8],
) -> u32
    ensures { (left (machine_of slots.new addresses.new values.new rtc.new page.new onsets.new frequencies.new
        duties.new starts.new codes.new (parts_in cells.new floats.new) ram.new sram.new gpio.new fb.new)
        result ≡ resume_of (machine_of slots.old addresses.old values.old rtc.old page.old onsets.old
        frequencies.old duties.old starts.old codes.old (parts_in cells.old floats.old) ram.old sram.old
        gpio.old fb.old) saved.now) × Words result cells.old floats.old cells.new
        floats.new }
{
    resuming::units::tg18_lent_resume(
        slots,
        addresses,
        values,
        rtc,
        page,
        onsets,
        frequencies,
        duties,
        starts,
        codes,
        cells,
        floats,
        ram,
        sram,
        gpio,
        fb,
        saved,
    )
}
