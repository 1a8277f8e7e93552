// The runner: a loop over the presses and one over the steps, in which each acts on the state where it stands. The
// places in script and output move on with them: worked out from an entry's number they cost 3.5 instructions a step
// more (counted).
ghost use Rattle.std.specs.Prelude.{◌≡◌, true, List, ℕ, ◌+◌, ◌-◌, ◌*◌, ◌≤◌, Float, length};
ghost use Rattle.map.specs.Refusals.{number_of};
ghost use Rattle.state.specs.Bank.{parts_in};
ghost use Rattle.state.specs.Packed.{StaysPacked, Answered};
ghost use Rattle.system.specs.Bank.{machine_of};
ghost use Rattle.runner.specs.Format.{step_bytes, most_presses, most_steps, kinds_from, behind_presses, entries_from};
ghost use Rattle.entries.specs.Answers.{answer_bytes};
ghost use Rattle.entries.specs.Turn.{run_state};
ghost use Rattle.runner.specs.Script.{after_entries, continued, continued_of, ended, run_of};

use crate::format::{PRESS_BYTES, STEP_BYTES, bad_script, press_at, presses, step_at, steps};
use entries::act::act;
use entries::replies::{ANSWER_BYTES, lay, plain};
use map::Refusal;
use state::{CELLS, Cells, FLOATS, Floats};
use system::wipe::reset;
use whole::limits::Bits;

// The p presses of a script, of n entries in all; whatever the machine holds that no press reaches.
fn run_presses(
    starts: &mut [f64; 64],
    codes: &mut [u8; 64],
    cells: &mut Cells,
    floats: &Floats,
    script: &[u8],
    p: usize,
    out: &mut [u8],
)
    requires { (p ≤ most_presses) × (behind_presses p ≤ length script.now)
        × (4 + answer_bytes * p ≤ length out.old) }
    ensures { ((slots addresses values rtc page : List ℕ) (onsets frequencies duties : List Float)
        (ram sram gpio fb : List ℕ) (n : ℕ) → p ≤ n
        → after_entries
        (run_state
        (machine_of slots addresses values rtc page onsets frequencies duties starts.new codes.new
        (parts_in cells.new floats.now) ram sram gpio fb) out.new)
        (4 + answer_bytes * p)
        (entries_from script.now p (n - p) p)
        ≡ after_entries
        (run_state
        (machine_of slots addresses values rtc page onsets frequencies duties starts.old codes.old
        (parts_in cells.old floats.now) ram sram gpio fb) out.old)
        4
        (entries_from script.now p n 0))
        × StaysPacked cells.old floats.now cells.new floats.now }
{
    let mut from = 4;
    let mut to = 4;
    for _i in 0..p {
        let e = press_at(script, from);
        let pressed = time::buttons::press(starts, codes, cells, floats, e.address, Bits(e.value));
        let end = to + ANSWER_BYTES;
        lay(&mut out[..end], to, plain(pressed));
        from += PRESS_BYTES;
        to = end;
    }
}

// A script's p presses, and the k steps behind them.
fn run_entries(
    slots: &mut [u32; 76],
    addresses: &mut [u32; 256],
    values: &mut [u32; 256],
    rtc: &mut [u8; 256],
    page: &mut [u8; 256],
    onsets: &mut [f64; 256],
    frequencies: &mut [f64; 256],
    duties: &mut [f64; 256],
    starts: &mut [f64; 64],
    codes: &mut [u8; 64],
    cells: &mut Cells,
    floats: &mut Floats,
    ram: &mut [u8],
    sram: &mut [u8],
    gpio: &mut [u8],
    fb: &mut [u8],
    script: &[u8],
    p: usize,
    k: usize,
    out: &mut [u8],
)
    requires { (p ≤ most_presses) × (k ≤ most_steps) × (behind_presses p + step_bytes * k ≤ length script.now)
        × (4 + answer_bytes * (p + k) ≤ length out.old) × (kinds_from script.now (behind_presses p) k ≡ true) }
    ensures { (run_state
        (machine_of slots.new addresses.new values.new rtc.new page.new
        onsets.new frequencies.new duties.new starts.new codes.new
        (parts_in cells.new floats.new)
        ram.new sram.new gpio.new fb.new) out.new
        ≡ after_entries
        (run_state
        (machine_of slots.old addresses.old values.old rtc.old
        page.old onsets.old frequencies.old duties.old starts.old
        codes.old
        (parts_in cells.old floats.old)
        ram.old sram.old gpio.old fb.old) out.old)
        4
        (entries_from script.now p (p + k) 0))
        × StaysPacked cells.old floats.old cells.new floats.new }
{
    run_presses(starts, codes, cells, floats, script, p, out);
    let mut from = 8 + PRESS_BYTES * p;
    let mut to = 4 + ANSWER_BYTES * p;
    for _i in 0..k {
        let e = step_at(script, from);
        let end = to + ANSWER_BYTES;
        act(
            slots,
            addresses,
            values,
            rtc,
            page,
            onsets,
            frequencies,
            duties,
            starts,
            codes,
            cells,
            floats,
            ram,
            sram,
            gpio,
            fb,
            e,
            &mut out[..end],
            to,
        );
        from += STEP_BYTES;
        to = end;
    }
}

// Runs a script from where the state stands, over memories of any length: what lies past the end of one reads as 0 and
// is not stored.
pub fn continue_script(
    slots: &mut [u32; 76],
    addresses: &mut [u32; 256],
    values: &mut [u32; 256],
    rtc: &mut [u8; 256],
    page: &mut [u8; 256],
    onsets: &mut [f64; 256],
    frequencies: &mut [f64; 256],
    duties: &mut [f64; 256],
    starts: &mut [f64; 64],
    codes: &mut [u8; 64],
    cells: &mut Cells,
    floats: &mut Floats,
    ram: &mut [u8],
    sram: &mut [u8],
    gpio: &mut [u8],
    fb: &mut [u8],
    script: &[u8],
    out: &mut [u8],
) -> Result<(), Refusal>
    ensures { (continued (number_of result)
        (machine_of slots.new addresses.new values.new rtc.new page.new
        onsets.new frequencies.new duties.new starts.new codes.new
        (parts_in cells.new floats.new)
        ram.new sram.new gpio.new fb.new) out.new
        ≡ continued_of
        (machine_of slots.old addresses.old values.old rtc.old
        page.old onsets.old frequencies.old duties.old starts.old
        codes.old
        (parts_in cells.old floats.old)
        ram.old sram.old gpio.old fb.old)
        script.now out.old)
        × Answered (number_of result) cells.old floats.old cells.new floats.new }
{
    if bad_script(script) {
        return Err(Refusal::BadScript);
    }
    let p = presses(script);
    let k = steps(script, p);
    if out.len() < 4 + ANSWER_BYTES * (p + k) {
        return Err(Refusal::OutTooShort);
    }
    memory::store(out, 0, 4, (p + k) as u32);
    run_entries(
        slots,
        addresses,
        values,
        rtc,
        page,
        onsets,
        frequencies,
        duties,
        starts,
        codes,
        cells,
        floats,
        ram,
        sram,
        gpio,
        fb,
        script,
        p,
        k,
        out,
    );
    Ok(())
}

// The same from the fresh state, with arrays of its own for the state.
pub fn run_script(
    ram: &mut [u8],
    sram: &mut [u8],
    gpio: &mut [u8],
    fb: &mut [u8],
    script: &[u8],
    out: &mut [u8],
) -> Result<(), Refusal>
    ensures { ended (number_of result) ram.new sram.new gpio.new fb.new
        out.new
        ≡ run_of ram.old sram.old gpio.old fb.old script.now
        out.old }
{
    let mut slots = [0u32; 76];
    let mut addresses = [0u32; 256];
    let mut values = [0u32; 256];
    let mut rtc = [0u8; 256];
    let mut page = [0u8; 256];
    let mut onsets = [0.0; 256];
    let mut frequencies = [0.0; 256];
    let mut duties = [0.0; 256];
    let mut starts = [0.0; 64];
    let mut codes = [0u8; 64];
    let mut cells = [0u64; CELLS];
    let mut floats = [0.0; FLOATS];
    reset(
        &mut slots,
        &mut addresses,
        &mut values,
        &mut rtc,
        &mut page,
        &mut onsets,
        &mut frequencies,
        &mut duties,
        &mut starts,
        &mut codes,
        &mut cells,
        &mut floats,
    );
    continue_script(
        &mut slots,
        &mut addresses,
        &mut values,
        &mut rtc,
        &mut page,
        &mut onsets,
        &mut frequencies,
        &mut duties,
        &mut starts,
        &mut codes,
        &mut cells,
        &mut floats,
        ram,
        sram,
        gpio,
        fb,
        script,
        out,
    )
}
