// Bytes of the bus without side effects, and bytes laid into plain memory.
#![tactic(auto)]

ghost use Rattle.std.specs.Prelude.{◌≡◌, ◌+◌, ◌-◌, ◌%◌, ◌^◌, ◌<◌, ◌≤◌, length, take, drop, nat_le};
ghost use Rattle.std.specs.Prelude.{true, false, MatchOption};
ghost use Rattle.block.specs.Block.{held_in, peek_of, peeked32, block_of, lies_in, whole_of};
ghost use Rattle.block.specs.Block.{block, read_of, plain, poked_of, laid_of};

use memory::Place;

fn along(from: u32, i: usize) -> u32
    ensures { result ≡ (from + i) % 2 ^ 32 }
{
    from.wrapping_add((i % 0x1_0000_0000) as u32)
}

fn fits(len: usize, at: usize, n: usize) -> bool
    ensures { result ≡ nat_le (at + n) len }
{
    if len < n {
        return false;
    }
    at <= len - n
}

// Whether a block lies in one memory. Stray space counts in pages of 64 KiB, as the Rust has it.
#[tactic(auto, unfolding(crate::specs::Block::whole_of))]
fn is_whole(ram: usize, sram: usize, gpio: usize, addr: u32, n: usize) -> bool
    ensures { result ≡ whole_of ram sram gpio addr n }
{
    let place = memory::locate(addr);
    match place {
        Place::Ram(at) => fits(ram, at, n),
        Place::Sram(at) => fits(sram, at, n),
        Place::Gpio(at) => fits(gpio, at, n),
        Place::Register => false,
        Place::Stray => fits(0x1_0000, (addr % 0x1_0000) as usize, n),
    }
}

// The block where it lies whole in a memory, which has so many addresses from the first on.
fn part(m: &[u8], first: u32, size: usize, addr: u32, n: usize) -> Option<&[u8]>
    ensures { MatchOption result (lies_in first size (length m.now) addr n ≡ false)
        (λ s. (lies_in first size (length m.now) addr n ≡ true) × (s.now ≡ take n (drop (addr - first) m.now))) }
{
    let at = addr.checked_sub(first)? as usize;
    if fits(size, at, n) & fits(m.len(), at, n) {
        return Some(&m[at..at + n]);
    }
    None
}

// What can be seen of a unit: its stored registers and its plain memories.
#[derive(Clone, Copy)]
pub struct Seen<'a> {
    pub slots: &'a [u32; 76],
    pub addresses: &'a [u32; 256],
    pub values: &'a [u32; 256],
    pub ram: &'a [u8],
    pub sram: &'a [u8],
    pub gpio: &'a [u8],
}

impl<'a> Seen<'a> {
    // The memory byte, the stored register byte or 0 at an address.
    #[tactic(auto, unfolding(crate::specs::Block::peek_of))]
    pub fn peek8(&self, addr: u32) -> u8
        ensures { result
            ≡ peek_of (held_in self.now)
            self.now.ram.now self.now.sram.now self.now.gpio.now addr }
    {
        let place = memory::locate(addr);
        match place {
            Place::Ram(at) => memory::byte(self.ram, at),
            Place::Sram(at) => memory::byte(self.sram, at),
            Place::Gpio(at) => memory::byte(self.gpio, at),
            Place::Register => {
                let word = registers::reg(self.slots, self.addresses, self.values, addr - addr % 4);
                memory::low(memory::cut(word, addr, 1))
            }
            Place::Stray => 0,
        }
    }

    // Four bytes, each by itself, the lowest first.
    pub fn peek32(&self, addr: u32) -> u32
        ensures { result
            ≡ peeked32 (held_in self.now)
            self.now.ram.now self.now.sram.now self.now.gpio.now addr }
    {
        let a = self.peek8(along(addr, 0));
        let b = self.peek8(along(addr, 1));
        let c = self.peek8(along(addr, 2));
        let d = self.peek8(along(addr, 3));
        u32::from_le_bytes([a, b, c, d])
    }

    fn gather(&self, addr: u32, buf: &mut [u8])
        ensures { buf.new
            ≡ block_of (held_in self.now)
            self.now.ram.now self.now.sram.now self.now.gpio.now addr (length buf.old) }
    {
        for (i, b) in buf.iter_mut().enumerate() {
            *b = self.peek8(along(addr, i));
        }
    }

    // Byte by byte only where a block does not lie in one memory.
    fn copy(&self, addr: u32, buf: &mut [u8])
        ensures { buf.new
            ≡ block_of (held_in self.now)
            self.now.ram.now self.now.sram.now self.now.gpio.now addr (length buf.old) }
    {
        let n = buf.len();
        let run = part(self.ram, map::FLASH_BASE, map::RAM_SIZE, addr, n)
            .or(part(self.sram, map::SRAM_BASE, map::SRAM_SIZE, addr, n))
            .or(part(self.gpio, map::GPIO_BASE, map::GPIO_SIZE, addr, n));
        match run {
            Some(bytes) => memory::copy(buf, bytes),
            None => self.gather(addr, buf),
        }
    }

    // A block of the bus; the answer says whether it lies in one memory.
    pub fn read_block(&self, addr: u32, buf: &mut [u8]) -> bool
        ensures { block result buf.new
            ≡ read_of (held_in self.now)
            self.now.ram.now self.now.sram.now self.now.gpio.now addr (length buf.old) }
    {
        let n = buf.len();
        self.copy(addr, buf);
        is_whole(self.ram.len(), self.sram.len(), self.gpio.len(), addr, n)
    }
}

#[tactic(auto, unfolding(crate::specs::Block::poked_of))]
fn poke8(ram: &mut [u8], sram: &mut [u8], gpio: &mut [u8], addr: u32, b: u8)
    ensures { plain ram.new sram.new gpio.new
        ≡ poked_of (plain ram.old sram.old gpio.old) addr b }
{
    let place = memory::locate(addr);
    match place {
        Place::Ram(at) => {
            memory::store(ram, at, 1, b as u32);
        }
        Place::Sram(at) => {
            memory::store(sram, at, 1, b as u32);
        }
        Place::Gpio(at) => {
            memory::store(gpio, at, 1, b as u32);
        }
        Place::Register => {}
        Place::Stray => {}
    }
}

// Bytes laid into memories; those that fall elsewhere are dropped.
pub fn poke(ram: &mut [u8], sram: &mut [u8], gpio: &mut [u8], addr: u32, bytes: &[u8])
    ensures { plain ram.new sram.new gpio.new
        ≡ laid_of (plain ram.old sram.old gpio.old) addr bytes.now }
{
    for (i, b) in bytes.iter().enumerate() {
        poke8(ram, sram, gpio, along(addr, i), *b);
    }
}
