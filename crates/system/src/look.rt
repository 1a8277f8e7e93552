// What can be seen without a change: counters, and bytes of the bus.
ghost use Rattle.std.specs.Prelude.{◌≡◌, length};
ghost use Rattle.registers.specs.Words.{registers_of};
ghost use Rattle.block.specs.Block.{block, read_of, peek_of, peeked32};
ghost use Rattle.system.specs.Calls.{counters_of};

use crate::{Counters, System};
use block::Seen;
use registers::Registers;

pub fn counters(s: System) -> Counters
    ensures { result ≡ counters_of s }
{
    Counters {
        frames: s.devices.panel.pen.frames,
        writes: s.devices.flash.writes,
        off: s.devices.off,
    }
}

fn seen<'a>(held: &'a Registers, ram: &'a [u8], sram: &'a [u8], gpio: &'a [u8]) -> Seen<'a>
    ensures registers { registers_of result.slots.now result.addresses.now result.values.now ≡ held.now }
    ensures ram { result.ram.now ≡ ram.now }
    ensures sram { result.sram.now ≡ sram.now }
    ensures gpio { result.gpio.now ≡ gpio.now }
{
    Seen {
        slots: &held.slots,
        addresses: &held.addresses,
        values: &held.values,
        ram,
        sram,
        gpio,
    }
}

pub fn peek8(s: System, ram: &[u8], sram: &[u8], gpio: &[u8], addr: u32) -> u8
    ensures { result ≡ peek_of s.registers ram.now sram.now gpio.now addr }
{
    seen(&s.registers, ram, sram, gpio).peek8(addr)
}

pub fn peek32(s: System, ram: &[u8], sram: &[u8], gpio: &[u8], addr: u32) -> u32
    ensures { result ≡ peeked32 s.registers ram.now sram.now gpio.now addr }
{
    seen(&s.registers, ram, sram, gpio).peek32(addr)
}

pub fn read_block(
    s: System,
    ram: &[u8],
    sram: &[u8],
    gpio: &[u8],
    addr: u32,
    buf: &mut [u8],
) -> bool
    ensures { block result buf.new ≡ read_of s.registers ram.now sram.now
        gpio.now addr (length buf.old) }
{
    seen(&s.registers, ram, sram, gpio).read_block(addr, buf)
}
