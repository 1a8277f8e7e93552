// The sections written, one behind the other. Each answers the place behind it.
ghost use Rattle.std.specs.Prelude.{◌+◌, ◌≤◌, length};
ghost use Rattle.session.specs.Fields.{counted};
ghost use Rattle.session.specs.Sections.{timers_section, words_section, flags_section, panel_section};
ghost use Rattle.session.specs.Sections.{clocks_section, sound_section, flash_section, keys_section};
ghost use Rattle.session.specs.Sections.{devices_sections, memory_sections};
ghost use Rattle.saving.specs.Inner.{Laid};

use crate::copies::copy_out;
use crate::numbers::put;
use crate::runs::{lay_cells, lay_floats};
use state::{Cells, Floats};

pub(crate) fn lay_timers(out: &mut [u8], at: usize, cells: &Cells, floats: &Floats) -> usize
    requires { at + length (timers_section cells.now floats.now) ≤ length out.old }
    ensures { Laid out.old out.new at result
        (timers_section cells.now floats.now) }
{
    let starts = put(out, at, 4, 6);
    let pending = lay_floats(out, starts, floats, 3, 6);
    lay_cells(out, pending, cells, 31, 6)
}

pub(crate) fn lay_words(
    out: &mut [u8],
    at: usize,
    slots: &[u32; 76],
    addresses: &[u32; 256],
    values: &[u32; 256],
    n: usize,
) -> usize
    requires { (at + length (words_section slots.now addresses.now values.now n) ≤ length out.old)
        × (n ≤ 256) }
    ensures { Laid out.old out.new at result
        (words_section slots.now addresses.now values.now n) }
{
    let own = put(out, at, 4, n as u64);
    let others = crate::others::lay_slots(out, own, slots);
    crate::others::lay_others(out, others, addresses, values, n)
}

fn lay_flags(out: &mut [u8], at: usize, cells: &Cells) -> usize
    requires { at + length (flags_section cells.now) ≤ length out.old }
    ensures { Laid out.old out.new at result (flags_section cells.now) }
{
    let converting = put(out, at, 4, 2);
    let off = lay_cells(out, converting, cells, 40, 1);
    lay_cells(out, off, cells, 43, 1)
}

fn lay_panel(out: &mut [u8], at: usize, cells: &Cells) -> usize
    requires { at + length (panel_section cells.now) ≤ length out.old }
    ensures { Laid out.old out.new at result (panel_section cells.now) }
{
    let order = put(out, at, 4, 45);
    lay_cells(out, order, cells, 11, 14)
}

fn lay_clocks(out: &mut [u8], at: usize, cells: &Cells, floats: &Floats, rtc: &[u8; 256]) -> usize
    requires { at + length (clocks_section cells.now floats.now rtc.now) ≤ length out.old }
    ensures { Laid out.old out.new at result
        (clocks_section cells.now floats.now rtc.now) }
{
    let times = put(out, at, 4, 328);
    let set = lay_floats(out, times, floats, 0, 3);
    let ticks = lay_floats(out, set, floats, 9, 2);
    let latch = lay_cells(out, ticks, cells, 37, 3);
    let regs = lay_cells(out, latch, cells, 41, 2);
    copy_out(out, regs, rtc)
}

fn lay_sound(out: &mut [u8], at: usize, floats: &Floats) -> usize
    requires { at + length (sound_section floats.now) ≤ length out.old }
    ensures { Laid out.old out.new at result (sound_section floats.now) }
{
    let tone = put(out, at, 4, 2);
    lay_floats(out, tone, floats, 11, 2)
}

fn lay_flash(out: &mut [u8], at: usize, cells: &Cells, page: &[u8; 256]) -> usize
    requires { at + length (flash_section cells.now page.now) ≤ length out.old }
    ensures { Laid out.old out.new at result
        (flash_section cells.now page.now) }
{
    let chip = put(out, at, 4, 276);
    let gathered = lay_cells(out, chip, cells, 1, 10);
    copy_out(out, gathered, page)
}

fn lay_keys(out: &mut [u8], at: usize, cells: &Cells, floats: &Floats) -> usize
    requires { at + length (keys_section cells.now floats.now) ≤ length out.old }
    ensures { Laid out.old out.new at result
        (keys_section cells.now floats.now) }
{
    let down = put(out, at, 4, 28);
    let holds = lay_cells(out, down, cells, 47, 4);
    lay_floats(out, holds, floats, 13, 3)
}

pub(crate) fn lay_devices(
    out: &mut [u8],
    at: usize,
    cells: &Cells,
    floats: &Floats,
    rtc: &[u8; 256],
    page: &[u8; 256],
) -> usize
    requires { at + length (devices_sections cells.now floats.now rtc.now page.now) ≤ length out.old }
    ensures { Laid out.old out.new at result
        (devices_sections cells.now floats.now rtc.now page.now) }
{
    let drawing = lay_flags(out, at, cells);
    let times = lay_panel(out, drawing, cells);
    let sound = lay_clocks(out, times, cells, floats, rtc);
    let chip = lay_sound(out, sound, floats);
    let down = lay_flash(out, chip, cells, page);
    lay_keys(out, down, cells, floats)
}

fn lay_memory(out: &mut [u8], at: usize, bytes: &[u8]) -> usize
    requires { at + length (counted (length bytes.now) bytes.now) ≤ length out.old }
    ensures { Laid out.old out.new at result
        (counted (length bytes.now) bytes.now) }
{
    let next = put(out, at, 4, bytes.len() as u64);
    copy_out(out, next, bytes)
}

pub(crate) fn lay_memories(
    out: &mut [u8],
    at: usize,
    ram: &[u8],
    sram: &[u8],
    gpio: &[u8],
    fb: &[u8],
) -> usize
    requires { at + length (memory_sections ram.now sram.now gpio.now fb.now) ≤ length out.old }
    ensures { Laid out.old out.new at result
        (memory_sections ram.now sram.now gpio.now fb.now) }
{
    let second = lay_memory(out, at, ram);
    let third = lay_memory(out, second, sram);
    let fourth = lay_memory(out, third, gpio);
    lay_memory(out, fourth, fb)
}
