// A session of a unit, saved.
ghost use Rattle.std.specs.Prelude.{◌≡◌, false, ◌≤◌, length, get_or};
ghost use Rattle.std.proofs.lemmas.List.Edits.{sets};
ghost use Rattle.timer.specs.Events.{queue_of};
ghost use Rattle.keys.specs.Script.{waiting_in};
ghost use Rattle.state.specs.Bank.{parts_in};
ghost use Rattle.state.specs.Packed.{cells_of, floats_of};
ghost use Rattle.runner.specs.Script.{bad_memory};
ghost use Rattle.system.specs.Bank.{machine_of};
ghost use Rattle.session.specs.Layout.{size_of};
ghost use Rattle.session.specs.Session.{saved, save_of};
ghost use Rattle.saving.specs.Inner.{layout};

use script::{BAD_MEMORY, DONE, bad_memory};
use session::places::size;
use state::{CELLS, Cells, FLOATS, Floats, Parts};
use timer::Ring;

const SAVE_TOO_SHORT: u32 = map::SAVE_TOO_SHORT as u32;

// All sections, of a packed bank.
fn lay(
    out: &mut [u8],
    cells: &Cells,
    floats: &Floats,
    slots: &[u32; 76],
    addresses: &[u32; 256],
    values: &[u32; 256],
    rtc: &[u8; 256],
    page: &[u8; 256],
    starts: &[f64; 64],
    codes: &[u8; 64],
    onsets: &[f64; 256],
    frequencies: &[f64; 256],
    duties: &[f64; 256],
    ram: &[u8],
    sram: &[u8],
    gpio: &[u8],
    fb: &[u8],
    time: f64,
    places: usize,
    ring: Ring,
    n: usize,
    k: usize,
    e: usize,
)
    requires { (length (layout cells.now floats.now slots.now addresses.now values.now n rtc.now page.now starts.now
        codes.now time places k (queue_of onsets.now frequencies.now duties.now ring) e
        ram.now sram.now gpio.now fb.now) ≤ length out.old) × ((n ≤ 256) × ((places ≤ 64) × (e ≤ 256))) }
    ensures { out.new ≡ sets out.old 0 (layout cells.now floats.now
        slots.now addresses.now values.now n rtc.now page.now
        starts.now codes.now time places k (queue_of onsets.now frequencies.now duties.now ring) e ram.now
        sram.now gpio.now fb.now) }
{
    let words = crate::writers::lay_timers(out, 0, cells, floats);
    let devices = crate::writers::lay_words(out, words, slots, addresses, values, n);
    let tables = crate::writers::lay_devices(out, devices, cells, floats, rtc, page);
    let sounds = crate::pressed::lay_section(out, tables, starts, codes, time, places, k);
    let memories = crate::sounds::lay_section(out, sounds, onsets, frequencies, duties, ring, e);
    crate::writers::lay_memories(out, memories, ram, sram, gpio, fb);
}

// All sections, of a bank that is packed first: any words are a state, and a session has those of its parts.
fn lay_parts(
    out: &mut [u8],
    parts: Parts,
    slots: &[u32; 76],
    addresses: &[u32; 256],
    values: &[u32; 256],
    rtc: &[u8; 256],
    page: &[u8; 256],
    starts: &[f64; 64],
    codes: &[u8; 64],
    onsets: &[f64; 256],
    frequencies: &[f64; 256],
    duties: &[f64; 256],
    ram: &[u8],
    sram: &[u8],
    gpio: &[u8],
    fb: &[u8],
    places: usize,
    n: usize,
    k: usize,
    e: usize,
)
    requires { (bad_memory ram.now sram.now gpio.now fb.now ≡ false) × ((size_of n k e ≤ length out.old)
        × ((k ≡ waiting_in starts.now parts.devices.clocks.times.now places)
        × ((n ≤ 256) × ((places ≤ 64) × (e ≤ 256))))) }
    ensures { out.new ≡ sets out.old 0 (layout (cells_of parts) (floats_of parts)
        slots.now addresses.now values.now n rtc.now page.now
        starts.now codes.now parts.devices.clocks.times.now places k
        (queue_of onsets.now frequencies.now duties.now parts.ring) e ram.now sram.now gpio.now
        fb.now) }
{
    let time = parts.devices.clocks.times.now;
    let ring = parts.ring;
    let mut cells: Cells = [0; CELLS];
    let mut floats: Floats = [0.0; FLOATS];
    state::wholes::put_parts(&mut cells, &mut floats, parts);
    lay(
        out,
        &cells,
        &floats,
        slots,
        addresses,
        values,
        rtc,
        page,
        starts,
        codes,
        onsets,
        frequencies,
        duties,
        ram,
        sram,
        gpio,
        fb,
        time,
        places,
        ring,
        n,
        k,
        e,
    );
}

// Writes the session, and how many bytes it has.
pub fn tg18_lent_save(
    slots: &[u32; 76],
    addresses: &[u32; 256],
    values: &[u32; 256],
    rtc: &[u8; 256],
    page: &[u8; 256],
    onsets: &[f64; 256],
    frequencies: &[f64; 256],
    duties: &[f64; 256],
    starts: &[f64; 64],
    codes: &[u8; 64],
    cells: &Cells,
    floats: &Floats,
    ram: &[u8],
    sram: &[u8],
    gpio: &[u8],
    fb: &[u8],
    out: &mut [u8],
    written: &mut [u64; 1],
) -> u32
    ensures { saved result (get_or written.new 0 0) out.new ≡ save_of
        (machine_of slots.now addresses.now values.now rtc.now page.now onsets.now frequencies.now
        duties.now starts.now codes.now (parts_in
        cells.now floats.now) ram.now sram.now gpio.now fb.now) out.old }
{
    *written = [0];
    if bad_memory(ram, sram, gpio, fb) {
        return BAD_MEMORY;
    }
    let parts = state::wholes::parts_of(cells, floats);
    let places = keys::presses::places(parts.keys.count);
    let n = crate::others::used(values);
    let k = crate::pressed::count(starts, parts.devices.clocks.times.now, places);
    let e = crate::sounds::held(parts.ring);
    let size = size(n as u16, k as u8, e as u16);
    if out.len() < size {
        return SAVE_TOO_SHORT;
    }
    lay_parts(
        out,
        parts,
        slots,
        addresses,
        values,
        rtc,
        page,
        starts,
        codes,
        onsets,
        frequencies,
        duties,
        ram,
        sram,
        gpio,
        fb,
        places,
        n,
        k,
        e,
    );
    *written = [size as u64];
    DONE
}
