// Register words judged and read: the 76 own ones, and the others with their addresses, which rise. In the table they
// fall, and the free places come last.
ghost use Rattle.std.specs.Prelude.{◌≡◌, ◌+◌, ◌*◌, ◌^◌, ◌≤◌, ◌<◌, length};
ghost use Rattle.memory.specs.Places.{place_of};
ghost use Rattle.system.specs.Refusals.{is_register};
ghost use Rattle.session.specs.Read.{slots_in, places_in};
ghost use Rattle.session.specs.Good.{other_word, last_at, good_other, good_others};

use crate::numbers::{four, number};
use crate::places::{OTHERS_AT, WORDS_AT};
use memory::Place;

fn is_register(addr: u32) -> bool
    ensures { result ≡ is_register (place_of addr) }
{
    match memory::locate(addr) {
        Place::Register => true,
        Place::Ram(_) | Place::Sram(_) | Place::Gpio(_) | Place::Stray => false,
    }
}

// A word that takes one of the 256 places while it is not zero.
fn other_word(addr: u32) -> bool
    ensures { result ≡ other_word addr }
{
    ((registers::slot(addr) == 76) & !registers::day_word(addr))
        & ((addr % 4 == 0) & is_register(addr))
}

fn good_other(last: u64, addr: u64, value: u64) -> bool
    requires { addr < 2 ^ 32 }
    ensures { result ≡ good_other last addr value }
{
    ((value != 0) & (last < addr)) & other_word(addr as u32)
}

// The address in the row before; 0 before the first.
fn last_at(s: &[u8], i: usize) -> u64
    requires { (366 + 8 * i ≤ length s.now) × (i ≤ 256) }
    ensures { result ≡ last_at s.now i }
{
    if i == 0 {
        return 0;
    }
    number(s, OTHERS_AT + 8 * (i - 1), 4)
}

pub(crate) fn good_others(s: &[u8], n: usize) -> bool
    requires { (366 + 8 * n ≤ length s.now) × (n ≤ 256) }
    ensures { result ≡ good_others s.now n }
{
    for i in 0..n {
        let at = OTHERS_AT + 8 * i;
        if !good_other(last_at(s, i), number(s, at, 4), number(s, at + 4, 4)) {
            return false;
        }
    }
    true
}

pub(crate) fn read_slots(s: &[u8], slots: &mut [u32; 76])
    requires { 366 ≤ length s.now }
    ensures { slots.new ≡ slots_in s.now }
{
    for i in 0..76 {
        slots[i] = four(s, WORDS_AT + 4 + 4 * i);
    }
}

// A place holds the row that stands as far from the end; those past the last row hold 0.
pub(crate) fn read_others(s: &[u8], n: usize, addresses: &mut [u32; 256], values: &mut [u32; 256])
    requires { (366 + 8 * n ≤ length s.now) × (n ≤ 256) }
    ensures { (addresses.new ≡ places_in s.now 366 n)
        × (values.new ≡ places_in s.now 370 n) }
{
    *addresses = [0; 256];
    *values = [0; 256];
    for i in 0..n {
        let row = OTHERS_AT + 8 * (n - 1 - i);
        addresses[i] = four(s, row);
        values[i] = four(s, row + 4);
    }
}
