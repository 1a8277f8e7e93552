// The register words: `regs` of core/src/sys.rs. Some words have storage of their own; of the others 256 may be other
// than zero.
//
// The others stand in falling order of their addresses, and the free places, which hold zeros, behind them: so a word
// is found by halves, and equal words are equal arrays.
#![tactic(auto)]

ghost use Rattle.std.specs.Prelude.{◌≡◌, ℕ, ◌+◌, ◌-◌, ◌≤◌, length, get_or, set};
ghost use Rattle.map.specs.Refusals.{number_of};
ghost use Rattle.registers.specs.Words.{own_at, own_with, unstored, halved, place};
ghost use Rattle.registers.specs.Ports.{slot_of, index, named_words, timer_port, port_at, day_word};
ghost use Rattle.registers.specs.Words.{removed_to, inserted_to, strides, end_from, others, put_present};
ghost use Rattle.registers.specs.Words.{other_outcome, put_absent, other_spot, spot_of, word_in};
ghost use Rattle.registers.specs.Words.{registers_of, fresh_registers, word_at};

use map::Refusal;

#[derive(Clone, Copy)]
pub struct Registers {
    pub slots: [u32; 76],
    pub addresses: [u32; 256],
    pub values: [u32; 256],
}

// What a write to a word does beside storing it, or instead.
#[derive(Drop)]
pub enum Effect {
    TimerControl,
    DayField,
    Sound,
    LcdStatus,
    Tick,
    AdcControl,
    Power,
    SpiSend,
}

// What a word reads as that is not read as it is stored.
#[derive(Drop)]
pub enum View {
    TimerCounter,
    SpiAnswer,
    RtcReady,
    RtcOut,
    FlashStatus,
    FlashAnswer,
    ClockStatus,
    Pending,
    PendingFiq,
}

// What stands behind a word: the flash's select and its transfers, the panel's control, the RTC chip's command; what
// acts when it is written; what shows something else than what is stored; what is only stored, in its own storage or
// not.
#[derive(Drop)]
pub enum Port {
    Select,
    Send,
    LcdControl,
    RtcCommand,
    Acts(Effect),
    Shows(View),
    Holds,
    Other,
}

// Where a word is: in its own storage, nowhere since it is never stored, in a place, or in none, with the place that
// it would take.
#[derive(Drop)]
pub enum Spot {
    Own(usize),
    Never,
    Present(usize),
    Absent(usize),
}

// ---- words with storage of their own

// The slot of a word that is no timer's, or 76. A pattern takes no constant, so the addresses of `map` are spelled here
// once more; of what ships nothing else spells them.
#[tactic(auto, unfolding(crate::specs::Ports::index, crate::specs::Ports::named_rows))]
fn named(addr: u32) -> usize
    ensures { result ≡ 48 + index named_words addr }
{
    match addr {
        0xC004_0054 => 48,
        0xC004_0058 => 49,
        0xC008_0008 => 50,
        0xC008_000C => 51,
        0xC008_0010 => 52,
        0xC009_0004 => 53,
        0xC009_0008 => 54,
        0xC009_000C => 55,
        0xC009_0010 => 56,
        0xC009_0014 => 57,
        0xC00C_0004 => 58,
        0xC00C_0008 => 59,
        0xC015_0000 => 60,
        0xC015_0004 => 61,
        0xC015_0008 => 62,
        0xC015_000C => 63,
        0xD000_001C => 64,
        0xD000_003C => 65,
        0xD000_0078 => 66,
        0xD010_0028 => 67,
        0xD010_002C => 68,
        0xD010_0030 => 69,
        0xD010_0038 => 70,
        0xD050_0140 => 71,
        0xD050_016C => 72,
        0xD050_0188 => 73,
        0xD050_018C => 74,
        0xD050_033C => 75,
        _ => 76,
    }
}

// The slot of a word, or 76. A timer's is computed.
pub fn slot(addr: u32) -> usize
    ensures { result ≡ slot_of addr }
{
    if addr < map::TIMER_BASE {
        return named(addr);
    }
    if addr >= map::TIMER_END {
        return named(addr);
    }
    if addr % 4 == 0 {
        return ((addr - map::TIMER_BASE) / 4) as usize;
    }
    named(addr)
}

// Of a timer's eight words the first is its control, the third its reload, the fourth its compare; the buzzer follows
// one timer's.
pub const SOUND_CONTROL_SLOT: usize = 8 * map::SOUND_TIMER;

pub const SOUND_RELOAD_SLOT: usize = 8 * map::SOUND_TIMER + 2;

pub const SOUND_COMPARE_SLOT: usize = 8 * map::SOUND_TIMER + 3;

fn timer_port(s: usize) -> Port
    ensures { result ≡ timer_port s }
{
    let word = s % 8;
    if word == 0 {
        return Port::Acts(Effect::TimerControl);
    }
    if word == 4 {
        return Port::Shows(View::TimerCounter);
    }
    if (s == SOUND_RELOAD_SLOT) | (s == SOUND_COMPARE_SLOT) {
        return Port::Acts(Effect::Sound);
    }
    Port::Holds
}

// The port of a slot. A slot is a number for the sake of its place; here it becomes what it means, and nowhere else.
#[tactic(auto, unfolding(crate::specs::Ports::port_at, crate::specs::Ports::named_rows))]
pub fn port_at(s: usize) -> Port
    ensures { result ≡ port_at s }
{
    if s < 48 {
        return timer_port(s);
    }
    match s {
        48 => Port::Acts(Effect::Tick),
        49 => Port::Holds,
        50 => Port::Acts(Effect::SpiSend),
        51 => Port::Holds,
        52 => Port::Shows(View::SpiAnswer),
        53 => Port::Holds,
        54 => Port::Holds,
        55 => Port::RtcCommand,
        56 => Port::Shows(View::RtcReady),
        57 => Port::Shows(View::RtcOut),
        58 => Port::Acts(Effect::AdcControl),
        59 => Port::Holds,
        60 => Port::Select,
        61 => Port::Shows(View::FlashStatus),
        62 => Port::Send,
        63 => Port::Shows(View::FlashAnswer),
        64 => Port::Holds,
        65 => Port::Shows(View::ClockStatus),
        66 => Port::Acts(Effect::Power),
        67 => Port::Shows(View::Pending),
        68 => Port::Shows(View::PendingFiq),
        69 => Port::Holds,
        70 => Port::Holds,
        71 => Port::LcdControl,
        72 => Port::Holds,
        73 => Port::Holds,
        74 => Port::Acts(Effect::LcdStatus),
        75 => Port::Holds,
        _ => Port::Other,
    }
}

// Whether it is a word of the time of day.
pub fn day_word(addr: u32) -> bool
    ensures { result ≡ day_word addr }
{
    (addr == map::RTC_SECONDS) | (addr == map::RTC_MINUTES) | (addr == map::RTC_HOURS)
}

// The word at a place, 0 past the last.
pub fn get(words: &[u32], at: usize) -> u32
    ensures { result ≡ get_or words.now at 0 }
{
    words.get(at).copied().unwrap_or(0)
}

pub fn slot_set(slots: &mut [u32; 76], s: usize, value: u32)
    ensures { slots.new ≡ set slots.old s value }
{
    if s < 76 {
        slots[s] = value;
    }
}

// 0 where the word has no storage of its own.
pub fn own_reg(slots: &[u32; 76], addr: u32) -> u32
    ensures { result ≡ own_at slots.now addr }
{
    get(slots, slot(addr))
}

// Nothing where the word has no storage of its own.
pub fn own_insert(slots: &mut [u32; 76], addr: u32, value: u32)
    ensures { slots.new ≡ own_with slots.old addr value }
{
    slot_set(slots, slot(addr), value);
}

// ---- the others

// Never stored: the time of day. 0 is the address of a free place, and no register stands there.
fn unstored(addr: u32) -> bool
    ensures { result ≡ unstored addr }
{
    (addr == 0) | day_word(addr)
}

// One step of a search by halves: past the next places, where the last of them holds more than the key.
fn halved(words: &[u32; 256], key: u32, i: usize, half: usize) -> usize
    requires { (1 ≤ half) × (i + half ≤ 256) }
    ensures value { result ≡ halved words.now key i half }
    ensures upper_bound { result ≤ i + half }
{
    if words[i + half - 1] > key {
        return i + half;
    }
    i
}

// How many places hold more than the key, where they are in falling order; 255 where all of them do. No loop, so that
// no step is counted or tested; and no partition_point, which promises nothing of words in another order, of which
// `place` speaks too.
fn place(words: &[u32; 256], key: u32) -> usize
    ensures value { result ≡ place words.now key }
    ensures upper_bound { result ≤ 255 }
{
    let a = halved(words, key, 0, 128);
    let b = halved(words, key, a, 64);
    let c = halved(words, key, b, 32);
    let d = halved(words, key, c, 16);
    let e = halved(words, key, d, 8);
    let f = halved(words, key, e, 4);
    let g = halved(words, key, f, 2);
    halved(words, key, g, 1)
}

// How far apart the places are that are asked for the end of what is moved.
const STRIDE: usize = 16;

// The last place that need be moved with one: of those a stride apart from it on the first that is free, as all behind
// that are; near the end of the table the last.
fn end_from(addresses: &[u32; 256], at: usize) -> usize
    ensures value { result ≡ end_from strides addresses.now at }
    ensures upper_bound { result ≤ 255 }
{
    for end in (at..256 - STRIDE).step_by(STRIDE) {
        if addresses[end] == 0 {
            return end;
        }
    }
    255
}

// Up to place `end` the places behind one move up, and zeros come last.
fn shift_up(addresses: &mut [u32; 256], values: &mut [u32; 256], at: usize, end: usize)
    requires { end ≤ 255 }
    ensures addresses_after { addresses.new ≡ removed_to end addresses.old at }
    ensures values_after { values.new ≡ removed_to end values.old at }
{
    if at > end {
        return;
    }
    addresses.copy_within(at + 1..end + 1, at);
    values.copy_within(at + 1..end + 1, at);
    addresses[end] = 0;
    values[end] = 0;
}

// Up to place `end` the places from one on move down, the last fall out, and a word comes in.
fn shift_down(
    addresses: &mut [u32; 256],
    values: &mut [u32; 256],
    at: usize,
    end: usize,
    addr: u32,
    value: u32,
)
    requires { end ≤ 255 }
    ensures addresses_after { addresses.new ≡ inserted_to end addresses.old at addr }
    ensures values_after { values.new ≡ inserted_to end values.old at value }
{
    if at > end {
        return;
    }
    addresses.copy_within(at..end, at + 1);
    values.copy_within(at..end, at + 1);
    addresses[at] = addr;
    values[at] = value;
}

// A word that becomes zero gives its place back.
pub fn put_present(addresses: &mut [u32; 256], values: &mut [u32; 256], i: usize, value: u32)
    ensures { others addresses.new values.new
        ≡ put_present (others addresses.old values.old) i value }
{
    if value == 0 {
        let end = end_from(addresses, i);
        shift_up(addresses, values, i, end);
        return;
    }
    if i < 256 {
        values[i] = value;
    }
}

// A word that was zero takes a place, where the last is free.
pub fn put_absent(
    addresses: &mut [u32; 256],
    values: &mut [u32; 256],
    i: usize,
    addr: u32,
    value: u32,
) -> Result<(), Refusal>
    ensures { other_outcome (number_of result) (others addresses.new values.new)
        ≡ put_absent (others addresses.old values.old) i addr value }
{
    if value == 0 {
        return Ok(());
    }
    if values[255] != 0 {
        return Err(Refusal::RegistersFull);
    }
    let end = end_from(addresses, i);
    shift_down(addresses, values, i, end, addr, value);
    Ok(())
}

// ---- one look-up, and what is read there

// A word that has no storage of its own.
pub fn find_other(addresses: &[u32; 256], addr: u32) -> Spot
    ensures { result ≡ other_spot addresses.now addr }
{
    if unstored(addr) {
        return Spot::Never;
    }
    let i = place(addresses, addr);
    if addresses[i] == addr {
        return Spot::Present(i);
    }
    Spot::Absent(i)
}

fn find(addresses: &[u32; 256], addr: u32) -> Spot
    ensures { result ≡ spot_of addresses.now addr }
{
    let s = slot(addr);
    if s < 76 {
        return Spot::Own(s);
    }
    find_other(addresses, addr)
}

pub fn word_in(slots: &[u32; 76], values: &[u32; 256], spot: Spot) -> u32
    ensures { result ≡ word_in slots.now values.now spot }
{
    match spot {
        Spot::Own(s) => get(slots, s),
        Spot::Never => 0,
        Spot::Present(i) => get(values, i),
        Spot::Absent(_) => 0,
    }
}

// ---- all words, over lent arrays

// All words are zero, whatever the arrays held.
pub fn clear(slots: &mut [u32; 76], addresses: &mut [u32; 256], values: &mut [u32; 256])
    ensures { registers_of slots.new addresses.new values.new ≡ fresh_registers }
{
    *slots = [0; 76];
    *addresses = [0; 256];
    *values = [0; 256];
}

pub fn reg(slots: &[u32; 76], addresses: &[u32; 256], values: &[u32; 256], addr: u32) -> u32
    ensures { result
        ≡ word_at (registers_of slots.now addresses.now values.now) addr }
{
    word_in(slots, values, find(addresses, addr))
}
