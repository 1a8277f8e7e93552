// Whether the bytes of a session are good. Nothing is lent here but the bytes.
ghost use Rattle.std.specs.Prelude.{◌≡◌, ◌≤◌, length};
ghost use Rattle.std.specs.List.{list_all};
ghost use Rattle.std.specs.Float.Ieee.{le};
ghost use Rattle.whole.specs.Limits.{good_time};
ghost use Rattle.session.specs.Layout.{size_of};
ghost use Rattle.session.specs.Good.{come, good_cells, good_floats, in_order, in_step, good_bank};
ghost use Rattle.session.specs.Good.{good_counts, good_lengths, good_flash, good_tables, good_body, good_session};

use crate::numbers::count;
use crate::places::{CLOCKS, FLASH, KEYS, PANEL, PRESSES, SOUND, WORDS_AT, flags_at, ram_at};
use session::places::{LEAST, size};
use state::{CELLS, Cells, FLOATS, Floats};
use whole::limits::{finite, good_game, good_time, good_turbo};

fn come(cells: &Cells, i: usize) -> bool
    requires { i ≤ 3 }
    ensures { result ≡ come cells.now i }
{
    ((i as u64) < cells[16]) | (cells[12 + i] == 0)
}

fn good_cells(cells: &Cells) -> bool
    ensures { result ≡ good_cells cells.now }
{
    crate::runs::in_ranges(cells)
        & (((come(cells, 0) & come(cells, 1)) & (come(cells, 2) & come(cells, 3)))
            & (cells[50] % 32 == 0))
}

fn good_times(times: &[f64]) -> bool
    ensures { result ≡ list_all (λ t. good_time t) times.now }
{
    times.iter().all(|&time| good_time(time))
}

fn good_floats(f: &Floats) -> bool
    ensures { result ≡ good_floats f.now }
{
    (good_time(f[0]) & (good_game(f[1]) & good_turbo(f[2])))
        & (good_times(&f[3..9])
            & ((good_game(f[9]) & good_game(f[10]))
                & ((finite(f[11]) & finite(f[12])) & good_times(&f[13..16]))))
}

fn none_after(times: &[f64], now: f64) -> bool
    ensures { result ≡ list_all (λ t. le t now) times.now }
{
    times.iter().all(|&time| time <= now)
}

fn in_order(f: &Floats) -> bool
    ensures { result ≡ in_order f.now }
{
    none_after(&f[3..9], f[0]) & none_after(&f[9..11], f[1])
}

fn in_step(cells: &Cells, f: &Floats) -> bool
    ensures { result ≡ in_step cells.now f.now }
{
    let ticks = whole::whole(f[1] / 1.0);
    let syncs = whole::whole(f[0] * 60.0);
    (cells[37] == ticks) & (cells[39] == syncs)
}

fn good_bank(cells: &Cells, floats: &Floats) -> bool
    ensures { result ≡ good_bank cells.now floats.now }
{
    (good_cells(cells) & good_floats(floats)) & (in_order(floats) & in_step(cells, floats))
}

fn good_counts(s: &[u8], n: usize) -> bool
    requires { (size_of 0 0 0 ≤ length s.now) × (n ≤ 256) }
    ensures { result ≡ good_counts s.now n }
{
    let p = flags_at(n);
    ((count(s, 0) == 6) & ((count(s, p) == 2) & (count(s, p + PANEL) == 45)))
        & (((count(s, p + CLOCKS) == 328) & (count(s, p + SOUND) == 2))
            & ((count(s, p + FLASH) == 276) & (count(s, p + KEYS) == 28)))
}

fn good_lengths(s: &[u8], n: usize, k: usize, e: usize) -> bool
    requires { (length s.now ≡ size_of n k e) × ((n ≤ 256) × ((k ≤ 64) × (e ≤ 256))) }
    ensures { result ≡ good_lengths s.now n k e }
{
    let ram = ram_at(n, k, e);
    let sram = ram + 4 + map::RAM_SIZE;
    let gpio = sram + 4 + map::SRAM_SIZE;
    let fb = gpio + 4 + map::GPIO_SIZE;
    ((count(s, ram) == map::RAM_SIZE) & (count(s, sram) == map::SRAM_SIZE))
        & ((count(s, gpio) == map::GPIO_SIZE) & (count(s, fb) == map::FRAMEBUFFER_SIZE))
}

fn good_flash(s: &[u8], n: usize, cells: &Cells) -> bool
    requires { (size_of 0 0 0 ≤ length s.now) × (n ≤ 256) }
    ensures { result ≡ good_flash s.now n cells.now }
{
    let mut page: [u8; 256] = [0; 256];
    crate::copies::copy_in(&mut page, s, flags_at(n) + FLASH + 24);
    let chip = state::chips::chip_of(cells);
    reach::reachable(map::FLASH_SIZE, chip.tx, &page)
}

fn good_tables(s: &[u8], n: usize, k: usize, e: usize, time: f64) -> bool
    requires { (length s.now ≡ size_of n k e) × ((n ≤ 256) × ((k ≤ 64) × (e ≤ 256))) }
    ensures { result ≡ good_tables s.now n k e time }
{
    let presses = flags_at(n) + PRESSES + 4;
    let events = presses + 9 * k + 4;
    crate::others::good_others(s, n)
        & (crate::pressed::good_presses(s, presses, k, time)
            & crate::sounds::good_events(s, events, e))
}

fn good_body(s: &[u8], n: usize, k: usize, e: usize) -> bool
    requires { (length s.now ≡ size_of n k e) × ((n ≤ 256) × ((k ≤ 64) × (e ≤ 256))) }
    ensures { result ≡ good_body s.now n k e }
{
    let mut cells: Cells = [0; CELLS];
    let mut floats: Floats = [0.0; FLOATS];
    crate::readers::read_bank(s, n, &mut cells, &mut floats);
    (good_counts(s, n) & good_lengths(s, n, k, e))
        & ((good_bank(&cells, &floats) & good_flash(s, n, &cells))
            & good_tables(s, n, k, e, floats[0]))
}

pub(crate) fn good_session(s: &[u8]) -> bool
    ensures { result ≡ good_session s.now }
{
    let len = s.len();
    if len < LEAST {
        return false;
    }
    let n = count(s, WORDS_AT);
    if n > 256 {
        return false;
    }
    let k = count(s, flags_at(n) + PRESSES);
    if k > 64 {
        return false;
    }
    let e = count(s, flags_at(n) + PRESSES + 4 + 9 * k);
    if e > 256 {
        return false;
    }
    if len != size(n as u16, k as u8, e as u16) {
        return false;
    }
    good_body(s, n, k, e)
}
