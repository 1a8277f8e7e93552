// Reads and writes on the bus.
ghost use Rattle.std.specs.Prelude.{◌≡◌};
ghost use Rattle.system.specs.System.{machine, left};
ghost use Rattle.map.specs.Refusals.{number_of, value_or};
ghost use Rattle.system.specs.Calls.{read_by, read_of, write_of};

use crate::System;
use crate::parts::{Bank, with_slots};
use map::Refusal;

pub fn read(
    s: System,
    ram: &[u8],
    sram: &[u8],
    gpio: &[u8],
    addr: u32,
    size: u32,
) -> Result<(u32, System), Refusal>
    ensures { read_by s result ≡ read_of s ram.now sram.now gpio.now addr size }
{
    let held = s.registers;
    let mut slots = held.slots;
    let bank = Bank::of(s);
    let value = bus::read::read(
        &mut slots,
        &held.addresses,
        &held.values,
        &bank.cells,
        &bank.floats,
        ram,
        sram,
        gpio,
        addr,
        size,
    )?;
    Ok((value, with_slots(s, slots)))
}

pub fn write(
    s: System,
    ram: &mut [u8],
    sram: &mut [u8],
    gpio: &mut [u8],
    fb: &mut [u8],
    addr: u32,
    size: u32,
    value: u32,
) -> Result<System, Refusal>
    ensures { left (machine (value_or result s) ram.new sram.new gpio.new
        fb.new) (number_of result)
        ≡ write_of (machine s ram.old sram.old gpio.old fb.old) addr size
        value }
{
    let mut registers = s.registers;
    let mut rtc = s.rtc;
    let mut page = s.page;
    let mut queue = s.queue;
    let mut bank = Bank::of(s);
    bus::write::write(
        &mut registers.slots,
        &mut registers.addresses,
        &mut registers.values,
        &mut rtc,
        &mut page,
        &mut queue.onsets,
        &mut queue.frequencies,
        &mut queue.duties,
        &mut bank.cells,
        &mut bank.floats,
        ram,
        sram,
        gpio,
        fb,
        addr,
        size,
        value,
    )?;
    let parts = bank.parts();
    queue.ring = parts.ring;
    Ok(System {
        registers,
        rtc,
        page,
        devices: parts.devices,
        queue,
        presses: s.presses,
        keys: parts.keys,
    })
}
