// A session of a unit, resumed.
ghost use Rattle.std.specs.Prelude.{◌≡◌, true, false};
ghost use Rattle.state.specs.Bank.{parts_in};
ghost use Rattle.state.specs.Packed.{Packed};
ghost use Rattle.runner.specs.Script.{bad_memory};
ghost use Rattle.system.specs.System.{left};
ghost use Rattle.system.specs.Bank.{machine_of};
ghost use Rattle.session.specs.Good.{good_session};
ghost use Rattle.session.specs.Session.{machine_in, resume_of, Words};

use crate::places::ram_at;
use script::{BAD_MEMORY, DONE, bad_memory};
use state::{Cells, Floats};

const BAD_SAVE: u32 = map::BAD_SAVE as u32;

// What a good session says, whatever stood there.
fn read(
    slots: &mut [u32; 76],
    addresses: &mut [u32; 256],
    values: &mut [u32; 256],
    rtc: &mut [u8; 256],
    page: &mut [u8; 256],
    onsets: &mut [f64; 256],
    frequencies: &mut [f64; 256],
    duties: &mut [f64; 256],
    starts: &mut [f64; 64],
    codes: &mut [u8; 64],
    cells: &mut Cells,
    floats: &mut Floats,
    ram: &mut [u8],
    sram: &mut [u8],
    gpio: &mut [u8],
    fb: &mut [u8],
    s: &[u8],
)
    requires { (good_session s.now ≡ true) × (bad_memory ram.old sram.old gpio.old fb.old ≡ false) }
    ensures { (machine_of slots.new addresses.new values.new rtc.new
        page.new onsets.new frequencies.new duties.new starts.new
        codes.new (parts_in cells.new floats.new) ram.new sram.new
        gpio.new fb.new ≡ machine_in s.now)
        × Packed cells.new floats.new }
{
    let has = crate::counts::counts_of(s);
    let n = has.words;
    let k = has.presses;
    let e = has.events;
    crate::others::read_slots(s, slots);
    crate::others::read_others(s, n, addresses, values);
    crate::readers::read_pages(s, n, rtc, page);
    crate::readers::read_tables(s, n, k, e, onsets, frequencies, duties, starts, codes);
    crate::readers::read_bank(s, n, cells, floats);
    crate::readers::put_counts(cells, k, e);
    crate::readers::read_memories(s, ram_at(n, k, e), ram, sram, gpio, fb);
    time::resync::resync(slots, cells, floats, sram);
}

// Reads a session into the unit, or refuses it and changes nothing.
pub fn tg18_lent_resume(
    slots: &mut [u32; 76],
    addresses: &mut [u32; 256],
    values: &mut [u32; 256],
    rtc: &mut [u8; 256],
    page: &mut [u8; 256],
    onsets: &mut [f64; 256],
    frequencies: &mut [f64; 256],
    duties: &mut [f64; 256],
    starts: &mut [f64; 64],
    codes: &mut [u8; 64],
    cells: &mut Cells,
    floats: &mut Floats,
    ram: &mut [u8],
    sram: &mut [u8],
    gpio: &mut [u8],
    fb: &mut [u8],
    saved: &[u8],
) -> u32
    ensures { (left (machine_of slots.new addresses.new values.new rtc.new page.new onsets.new frequencies.new
        duties.new starts.new codes.new (parts_in cells.new floats.new) ram.new sram.new gpio.new fb.new)
        result ≡ resume_of (machine_of slots.old addresses.old values.old rtc.old page.old onsets.old
        frequencies.old duties.old starts.old codes.old (parts_in cells.old floats.old) ram.old sram.old
        gpio.old fb.old) saved.now) × Words result cells.old floats.old cells.new
        floats.new }
{
    if bad_memory(ram, sram, gpio, fb) {
        return BAD_MEMORY;
    }
    if !crate::judge::good_session(saved) {
        return BAD_SAVE;
    }
    read(
        slots,
        addresses,
        values,
        rtc,
        page,
        onsets,
        frequencies,
        duties,
        starts,
        codes,
        cells,
        floats,
        ram,
        sram,
        gpio,
        fb,
        saved,
    );
    DONE
}
