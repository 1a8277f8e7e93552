// The entry for C of crate saving: each function has its clauses again and calls it.
#![tactic(auto)]

ghost use Rattle.std.specs.Prelude.{◌≡◌, get_or};
ghost use Rattle.state.specs.Bank.{parts_in};
ghost use Rattle.system.specs.Bank.{machine_of};
ghost use Rattle.session.specs.Session.{saved, save_of};

use state::{Cells, Floats};

// Writes the session, and how many bytes it has.
#[unsafe(no_mangle)]
pub extern "C" fn tg18_lent_save(
    slots: &[u32; 76],
    addresses: &[u32; 256],
    values: &[u32; 256],
    rtc: &[u8; 256],
    page: &[u8; 256],
    onsets: &[f64; 256],
    frequencies: &[f64; 256],
    duties: &[f64; 256],
    starts: &[f64; 64],
    codes: &[u8; 64],
    cells: &Cells,
    floats: &Floats,
    ram: &[u8],
    sram: &[u8],
    gpio: &[u8],
    fb: &[u8],
    out: &mut [u8],
    written: &mut [u64; 1],
) -> u32
    ensures { saved result (get_or written.new 0 0) out.new ≡ save_of
        (machine_of slots.now addresses.now values.now rtc.now page.now onsets.now frequencies.now
        duties.now starts.now codes.now (parts_in
        cells.now floats.now) ram.now sram.now gpio.now fb.now) out.old }
{
    saving::units::tg18_lent_save(
        slots,
        addresses,
        values,
        rtc,
        page,
        onsets,
        frequencies,
        duties,
        starts,
        codes,
        cells,
        floats,
        ram,
        sram,
        gpio,
        fb,
        out,
        written,
    )
}
