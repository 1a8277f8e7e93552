// Where an address lies, the bytes of a memory, and an access's part of a register word: `plain`, `slow_read`,
// `slow_write`, `is_mmio` and the shifting and masking of `mmio_read` and `mmio_write` of core/src/sys.rs.
//
// Every size is taken: to refuse one is the caller's matter.
#![tactic(auto)]

ghost use Rattle.std.specs.Prelude.{◌≡◌, ◌+◌, ◌*◌, ◌%◌, ◌^◌, ◌≤◌, ◌++◌, length, take, drop, get_or};
ghost use Rattle.memory.specs.Places.{place_of};
ghost use Rattle.memory.specs.Bytes.{le, loaded, bytes_of, stored_at};
ghost use Rattle.memory.specs.Access.{good_size, shifted, mask_of, cut_of, written_of, merged_of};

// The memory that an address lies in, with its place there.
#[derive(Drop)]
pub enum Place {
    Ram(usize),
    Sram(usize),
    Gpio(usize),
    Register,
    Stray,
}

// ---- places

// The first byte of an access decides, and of its address mostly the highest byte.
pub fn locate(addr: u32) -> Place
    ensures { result ≡ place_of addr }
{
    match addr / 0x100_0000 {
        0x20 => Place::Ram((addr - map::FLASH_BASE) as usize),
        0xC0 if addr < map::GPIO_END => Place::Gpio((addr - map::GPIO_BASE) as usize),
        0xC0 => Place::Register,
        0xD0 => Place::Register,
        0xF8 if addr < map::SRAM_END => Place::Sram((addr - map::SRAM_BASE) as usize),
        0xFF if addr < map::REGISTERS_END => Place::Register,
        _ => Place::Stray,
    }
}

// ---- bytes

// The byte at a place, 0 past the end.
pub fn byte(m: &[u8], at: usize) -> u8
    ensures { result ≡ get_or m.now at 0 }
{
    m.get(at).copied().unwrap_or(0)
}

// Bytes laid over the first of as many, in a loop of its own: the library's copy_from_slice is a call of the C
// library's memmove, which a host would have to have, and which leaves what it copies in registers that this code
// does not use. Where one of the two is shorter, what has no counterpart stays.
pub fn copy(to: &mut [u8], from: &[u8])
    ensures { to.new ≡ take (length to.old) from.now ++ drop (length from.now) to.old }
{
    let n = to.len().min(from.len());
    for (i, b) in to[..n].iter_mut().enumerate() {
        *b = from[i];
    }
}

// A byte below the value so far: the Rust's `v << 8 | b`, whose top byte is lost.
fn grown(v: u32, b: u8) -> u32
    ensures { result ≡ (b + 256 * v) % 2 ^ 32 }
{
    v % 0x100_0000 * 256 + b as u32
}

// The value of bytes, the lowest first. A word, a half and a byte are read with no loop.
fn value_of(bytes: &[u8]) -> u32
    ensures { result ≡ le bytes.now 0 (length bytes.now) }
{
    match bytes {
        [a, b, c, d] => u32::from_le_bytes([*a, *b, *c, *d]),
        [a, b] => u32::from(u16::from_le_bytes([*a, *b])),
        [a] => u32::from(*a),
        _ => bytes.iter().rev().fold(0, |v, b| grown(v, *b)),
    }
}

// The value of `size` bytes, the lowest first; 0 where they pass the end. The tests are so that the first falls away
// where the place is known to be small.
pub fn load(m: &[u8], at: usize, size: usize) -> u32
    ensures { result ≡ loaded m.now at size }
{
    if usize::MAX - size < at {
        return 0;
    }
    if m.len() < at + size {
        return 0;
    }
    value_of(&m[at..at + size])
}

// The lowest bytes of a value, the lowest first, over bytes that are there; zeros over those past four.
fn lay(bytes: &mut [u8], value: u32)
    ensures { bytes.new ≡ bytes_of (length bytes.old) value }
{
    let all = value.to_le_bytes();
    match bytes.len() {
        4 => bytes.copy_from_slice(&all),
        2 => bytes.copy_from_slice(&all[..2]),
        1 => bytes.copy_from_slice(&all[..1]),
        _ => {
            let mut v = value;
            for b in bytes.iter_mut() {
                *b = low(v);
                v /= 256;
            }
        }
    }
}

// The lowest `size` bytes of a value; nothing where they pass the end. The tests are those of load.
pub fn store(m: &mut [u8], at: usize, size: usize, value: u32)
    ensures { m.new ≡ stored_at m.old at size value }
{
    if usize::MAX - size < at {
        return;
    }
    if m.len() < at + size {
        return;
    }
    lay(&mut m[at..at + size], value);
}

pub fn low(word: u32) -> u8
    ensures { result ≡ word % 256 }
{
    (word % 256) as u8
}

// ---- a part of a register word

pub fn good_size(size: u32) -> bool
    ensures { result ≡ good_size size }
{
    (size == 1) | (size == 2) | (size == 4)
}

// A value as it lies in the word: bits past the word are lost.
fn shift(value: u32, addr: u32) -> u32
    ensures { result ≡ shifted value addr }
{
    value << (8 * (addr % 4))
}

// The bits of the word that an access reaches; a size of 4 reaches them all, even unaligned.
fn mask(addr: u32, size: u32) -> u32
    ensures { result ≡ mask_of addr size }
{
    if size == 4 {
        return 0xFFFF_FFFF;
    }
    if size == 2 {
        return shift(0xFFFF, addr);
    }
    shift(0xFF, addr)
}

// What an access reads of a word.
pub fn cut(word: u32, addr: u32, size: u32) -> u32
    ensures { result ≡ cut_of word addr size }
{
    let w = word >> (8 * (addr % 4));
    if size == 4 {
        return w;
    }
    if size == 2 {
        return w % 0x1_0000;
    }
    w % 0x100
}

// The bits that an access writes.
pub fn written(addr: u32, size: u32, value: u32) -> u32
    ensures { result ≡ written_of addr size value }
{
    shift(value, addr) & mask(addr, size)
}

// The word after a write.
pub fn merged(old: u32, addr: u32, size: u32, value: u32) -> u32
    ensures { result ≡ merged_of old addr size value }
{
    (old & !mask(addr, size)) | written(addr, size, value)
}
