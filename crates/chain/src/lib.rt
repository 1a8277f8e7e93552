// A script from where a unit stands, so that a session can be a chain of scripts. Crate chain_c has the entry
// for C.
//
// That has an archive of its own: with a second caller in the same archive the runner would not be compiled into the
// entry, and each step would cost two to three times as much.
#![tactic(auto)]

ghost use Rattle.std.specs.Prelude.{◌≡◌};
ghost use Rattle.state.specs.Bank.{parts_in};
ghost use Rattle.state.specs.Packed.{Answered};
ghost use Rattle.system.specs.Bank.{machine_of};
ghost use Rattle.runner.specs.Script.{continued, script_from};

use script::{BAD_MEMORY, bad_memory};
use state::{Cells, Floats};

// Arrays and memories as the entries of crate live take them; script and output as script::tg18_run_script does.
pub fn tg18_lent_continue_script(
    slots: &mut [u32; 76],
    addresses: &mut [u32; 256],
    values: &mut [u32; 256],
    rtc: &mut [u8; 256],
    page: &mut [u8; 256],
    onsets: &mut [f64; 256],
    frequencies: &mut [f64; 256],
    duties: &mut [f64; 256],
    starts: &mut [f64; 64],
    codes: &mut [u8; 64],
    cells: &mut Cells,
    floats: &mut Floats,
    ram: &mut [u8],
    sram: &mut [u8],
    gpio: &mut [u8],
    fb: &mut [u8],
    script: &[u8],
    out: &mut [u8],
) -> u32
    ensures { (continued result (machine_of slots.new addresses.new values.new
        rtc.new page.new onsets.new frequencies.new duties.new
        starts.new codes.new (parts_in cells.new floats.new) ram.new
        sram.new gpio.new fb.new) out.new
        ≡ script_from (machine_of slots.old addresses.old values.old rtc.old
        page.old onsets.old frequencies.old duties.old
        starts.old codes.old (parts_in cells.old floats.old)
        ram.old sram.old gpio.old fb.old) script.now
        out.old)
        × Answered result cells.old floats.old cells.new floats.new }
{
    if bad_memory(ram, sram, gpio, fb) {
        return BAD_MEMORY;
    }
    let answer = runner::loops::continue_script(
        slots,
        addresses,
        values,
        rtc,
        page,
        onsets,
        frequencies,
        duties,
        starts,
        codes,
        cells,
        floats,
        ram,
        sram,
        gpio,
        fb,
        script,
        out,
    );
    map::status(answer)
}
