// What the bytes of a session say, read into what is lent.
ghost use Rattle.std.specs.Prelude.{◌≡◌, ◌+◌, ◌≤◌, false, length, set};
ghost use Rattle.map.specs.Numbers.{RAM_SIZE, SRAM_SIZE, GPIO_SIZE, FRAMEBUFFER_SIZE};
ghost use Rattle.runner.specs.Script.{bad_memory};
ghost use Rattle.session.specs.Fields.{part};
ghost use Rattle.session.specs.Layout.{clocks_at, flash_at, size_of};
ghost use Rattle.session.specs.Read.{cells_in, floats_in};
ghost use Rattle.resuming.specs.Inner.{TablesRead, MemoriesRead};

use crate::copies::copy_in;
use crate::places::{CLOCKS, FLASH, KEYS, PANEL, PENDING_AT, PRESSES, SOUND, STARTS_AT, flags_at};
use crate::runs::{read_cells, read_floats};
use state::{CELLS, Cells, FLOATS, Floats};

fn read_all_cells(s: &[u8], n: usize, cells: &mut Cells)
    requires { (size_of 0 0 0 ≤ length s.now) × (n ≤ 256) }
    ensures { cells.new ≡ cells_in s.now n }
{
    let p = flags_at(n);
    *cells = [0; CELLS];
    read_cells(s, PENDING_AT, cells, 31, 6);
    read_cells(s, p + 4, cells, 40, 1);
    read_cells(s, p + 5, cells, 43, 1);
    read_cells(s, p + PANEL + 4, cells, 11, 14);
    read_cells(s, p + CLOCKS + 44, cells, 37, 3);
    read_cells(s, p + CLOCKS + 64, cells, 41, 2);
    read_cells(s, p + FLASH + 4, cells, 1, 10);
    read_cells(s, p + KEYS + 4, cells, 47, 4);
}

fn read_all_floats(s: &[u8], n: usize, floats: &mut Floats)
    requires { (size_of 0 0 0 ≤ length s.now) × (n ≤ 256) }
    ensures { floats.new ≡ floats_in s.now n }
{
    let p = flags_at(n);
    *floats = [0.0; FLOATS];
    read_floats(s, STARTS_AT, floats, 3, 6);
    read_floats(s, p + CLOCKS + 4, floats, 0, 3);
    read_floats(s, p + CLOCKS + 28, floats, 9, 2);
    read_floats(s, p + SOUND + 4, floats, 11, 2);
    read_floats(s, p + KEYS + 8, floats, 13, 3);
}

pub(crate) fn read_bank(s: &[u8], n: usize, cells: &mut Cells, floats: &mut Floats)
    requires { (size_of 0 0 0 ≤ length s.now) × (n ≤ 256) }
    ensures { (cells.new ≡ cells_in s.now n)
        × (floats.new ≡ floats_in s.now n) }
{
    read_all_cells(s, n, cells);
    read_all_floats(s, n, floats);
}

// The RTC's registers and the flash's page.
pub(crate) fn read_pages(s: &[u8], n: usize, rtc: &mut [u8; 256], page: &mut [u8; 256])
    requires { (size_of 0 0 0 ≤ length s.now) × (n ≤ 256) }
    ensures { (rtc.new ≡ part s.now (clocks_at n + 76) 256)
        × (page.new ≡ part s.now (flash_at n + 24) 256) }
{
    let p = flags_at(n);
    copy_in(rtc, s, p + CLOCKS + 76);
    copy_in(page, s, p + FLASH + 24);
}

// Presses and sound events.
pub(crate) fn read_tables(
    s: &[u8],
    n: usize,
    k: usize,
    e: usize,
    onsets: &mut [f64; 256],
    frequencies: &mut [f64; 256],
    duties: &mut [f64; 256],
    starts: &mut [f64; 64],
    codes: &mut [u8; 64],
)
    requires { (length s.now ≡ size_of n k e) × ((n ≤ 256) × ((k ≤ 64) × (e ≤ 256))) }
    ensures { TablesRead s.now n k e onsets.new frequencies.new
        duties.new starts.new codes.new }
{
    let presses = flags_at(n) + PRESSES + 4;
    let events = presses + 9 * k + 4;
    crate::pressed::read_presses(s, presses, k, starts, codes);
    crate::sounds::read_events(s, events, e, onsets, frequencies, duties);
}

// How many presses and sound events wait; these stand in the first places.
pub(crate) fn put_counts(cells: &mut Cells, k: usize, e: usize)
    ensures { cells.new ≡ set (set cells.old 45 e) 46 k }
{
    cells[45] = e as u64;
    cells[46] = k as u64;
}

// Each behind its length, from a place on.
pub(crate) fn read_memories(
    s: &[u8],
    at: usize,
    ram: &mut [u8],
    sram: &mut [u8],
    gpio: &mut [u8],
    fb: &mut [u8],
)
    requires { (bad_memory ram.old sram.old gpio.old fb.old ≡ false)
        × (at + 16 + (RAM_SIZE + (SRAM_SIZE + (GPIO_SIZE + FRAMEBUFFER_SIZE))) ≤ length s.now) }
    ensures { MemoriesRead s.now at ram.new sram.new gpio.new
        fb.new }
{
    let second = at + 4 + map::RAM_SIZE;
    let third = second + 4 + map::SRAM_SIZE;
    let fourth = third + 4 + map::GPIO_SIZE;
    copy_in(ram, s, at + 4);
    copy_in(sram, s, second + 4);
    copy_in(gpio, s, third + 4);
    copy_in(fb, s, fourth + 4);
}
