// The match of flash_xfer: what the next byte is answered.
ghost use Rattle.std.specs.Prelude.{◌≡◌, ◌<◌, ◌≤◌, length};
ghost use Rattle.map.specs.Numbers.{FLASH_SIZE};
ghost use Rattle.flash.specs.Board.{is_strict};
ghost use Rattle.flash.specs.Xfer.{jedec, maker_of, read_of, kind_of, reply_to, answer_of};

use crate::buf::address;
use crate::{Chip, Kind, Mode, Trans};

pub(crate) fn strict(mode: Mode) -> bool
    ensures { result ≡ is_strict mode }
{
    matches!(mode, Mode::Strict)
}

fn identity(i: usize) -> u8
    ensures { result ≡ jedec i }
{
    match i {
        1 => 0xEF,
        2 => 0x40,
        3 => 0x17,
        _ => 0xFF,
    }
}

// The maker's byte and the device's by turns; in strict mode an odd address begins with the device's.
fn maker(mode: Mode, a3: u8, i: usize) -> u8
    requires { 4 ≤ i }
    ensures { result ≡ maker_of mode a3 i }
{
    let odd = strict(mode) & (a3 % 2 == 1);
    let second = (i - 4) % 2 == 1;
    if odd == second { 0xEF } else { 0x16 }
}

// The byte that is so far on from the address, going round.
fn read(t: Trans, far: usize, array: &[u8]) -> u8
    requires array_nonzero { 0 < length array.now }
    requires array_len_bound { length array.now ≤ FLASH_SIZE }
    ensures { result ≡ read_of t far array.now }
{
    let n = array.len();
    let at = (address(t, n) + far % n) % n;
    array[at]
}

#[tactic(auto, unfolding(crate::specs::Xfer::kind_of))]
fn decode(cmd: u8) -> Kind
    ensures { result ≡ kind_of cmd }
{
    match cmd {
        0x9F => Kind::Identity,
        0x90 => Kind::Maker,
        0xAB => Kind::Device,
        0x05 => Kind::Status,
        0x35 => Kind::Zero,
        0x15 => Kind::Zero,
        0x03 => Kind::Read,
        0x0B => Kind::FastRead,
        0x4B => Kind::Unique,
        _ => Kind::Other,
    }
}

fn respond(kind: Kind, chip: Chip, array: &[u8]) -> u8
    requires array_nonzero { 0 < length array.now }
    requires array_len_bound { length array.now ≤ FLASH_SIZE }
    ensures { result ≡ reply_to kind chip.mode chip.wel chip.tx array.now }
{
    let t = chip.tx;
    let mode = chip.mode;
    let i = t.pos;
    match kind {
        Kind::Identity => identity(i),
        Kind::Maker if 4 <= i => maker(mode, t.a3, i),
        Kind::Device if 4 <= i => 0x16,
        Kind::Status => { if chip.wel { 0x02 } else { 0 } }
        Kind::Zero => 0,
        Kind::Read if 4 <= i => read(t, i - 4, array),
        Kind::FastRead if 5 <= i => read(t, i - 5, array),
        Kind::Unique if 5 <= i => 0x5A,
        _ => 0xFF,
    }
}

pub(crate) fn answer(chip: Chip, array: &[u8]) -> u8
    requires array_nonzero { 0 < length array.now }
    requires array_len_bound { length array.now ≤ FLASH_SIZE }
    ensures { result ≡ answer_of chip.mode chip.wel chip.tx array.now }
{
    let t = chip.tx;
    if t.pos == 0 {
        return 0xFF;
    }
    let kind = decode(t.cmd);
    respond(kind, chip, array)
}
