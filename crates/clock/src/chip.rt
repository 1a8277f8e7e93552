// The RTC chip behind its register bus. Its 256 registers are lent.
ghost use Rattle.std.specs.Prelude.{◌≡◌, ◌+◌, ◌<◌};
ghost use Rattle.clock.specs.Rtc.{fresh_rtc, ticks_of, six_bytes, alarm_of, rtc_of, latched_of, output_of};
ghost use Rattle.clock.specs.Rtc.{commanded_of};

use crate::{Latch, Rtc};

// The chip as it is after a wipe.
pub fn fresh() -> Rtc
    ensures { result ≡ fresh_rtc }
{
    Rtc {
        regs: [0; 256],
        latch: Latch {
            base: 0,
            since: 0.0,
            out: 0,
        },
    }
}

// Ticks at 32,768 Hz, as the 64 bits of the Rust's i64.
pub fn ticks(latch: Latch, game: f64) -> u64
    ensures { result ≡ ticks_of latch game }
{
    latch
        .base
        .wrapping_add(whole::whole_signed((game - latch.since) * 32768.0))
}

// Six bytes, the lowest first.
fn six_bytes(regs: &[u8; 256], from: usize) -> u64
    requires { from + 5 < 256 }
    ensures { result ≡ six_bytes regs.now from }
{
    u64::from_le_bytes([
        regs[from],
        regs[from + 1],
        regs[from + 2],
        regs[from + 3],
        regs[from + 4],
        regs[from + 5],
        0,
        0,
    ])
}

// The ticks at which the alarm goes off, where it is on.
pub fn alarm_ticks(regs: &[u8; 256]) -> Option<u64>
    ensures { result ≡ alarm_of regs.now }
{
    if regs[0x40] & 6 == 0 {
        return None;
    }
    Some(six_bytes(regs, 0x20))
}

// The staged ticks become the base.
fn latched(regs: &[u8; 256], latch: Latch, game: f64) -> Latch
    ensures { result ≡ latched_of latch regs.now game }
{
    Latch {
        base: six_bytes(regs, 0x10),
        since: game,
        ..latch
    }
}

fn output(regs: &[u8; 256], latch: Latch, game: f64, at: usize) -> u32
    requires { at < 256 }
    ensures { result ≡ output_of latch regs.now game at }
{
    match at {
        0 => u32::from(regs[0] & 0xEF),
        0x30..=0x35 => (ticks(latch, game) >> (8 * (at - 0x30)) & 0xFF) as u32,
        _ => u32::from(regs[at]),
    }
}

// A command with the bus's address and data words: bit 0 writes, else bit 1 reads.
pub fn rtc_command(
    regs: &mut [u8; 256],
    latch: Latch,
    game: f64,
    address: u32,
    word: u32,
    cmd: u32,
) -> Latch
    ensures { rtc_of regs.new result ≡ commanded_of (rtc_of regs.old latch) game address word cmd }
{
    let at = (address % 256) as usize;
    if cmd & 1 != 0 {
        regs[at] = (word % 256) as u8;
        if at == 0x15 {
            return latched(regs, latch, game);
        }
        return latch;
    }
    if cmd & 2 != 0 {
        let out = output(regs, latch, game, at);
        return Latch { out, ..latch };
    }
    latch
}

// The same by value.
pub fn command(rtc: Rtc, game: f64, address: u32, word: u32, cmd: u32) -> Rtc
    ensures { result ≡ commanded_of rtc game address word cmd }
{
    let mut regs = rtc.regs;
    let latch = rtc_command(&mut regs, rtc.latch, game, address, word, cmd);
    Rtc { regs, latch }
}
