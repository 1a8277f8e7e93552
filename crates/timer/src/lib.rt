// A timer by value. Its registers belong to the bus, which hands in the words that a function reads.
#![tactic(auto)]

ghost use Rattle.std.specs.Prelude.{◌≡◌};
ghost use Rattle.timer.specs.Timers.{fresh_timer, period_of, sysclk_of, rate_of, elapsed_of, counter_of, control_of};
ghost use Rattle.timer.specs.Timers.{cleared_of, written_of, advanced_of, resynced_of};

pub mod events;
pub mod sound;

#[derive(Clone, Copy)]
pub struct Timer {
    pub start: f64,
    pub seen: u64,
    pub pending: bool,
}

// A timer after a write of its control word, and the word that is stored.
#[derive(Drop)]
pub struct Written {
    pub timer: Timer,
    pub control: u32,
}

// Frequency in Hz (0 is off) and duty of the buzzer.
#[derive(Clone, Copy, PartialEq)]
pub struct Tone {
    pub frequency: f64,
    pub duty: f64,
}

// ---- sound events

// What sounds from a time on. Hosts lend records of it, so its layout is C's.
#[repr(C)]
#[derive(Drop)]
pub struct Event {
    pub time: f64,
    pub frequency: f64,
    pub duty: f64,
}

// The place of the oldest event, and how many wait. Any value is a state: a count above 256 goes round.
#[derive(Clone, Copy)]
pub struct Ring {
    pub head: u8,
    pub count: usize,
}

// The waiting events: an event has one place in the three arrays.
#[derive(Clone, Copy)]
pub struct Queue {
    pub onsets: [f64; 256],
    pub frequencies: [f64; 256],
    pub duties: [f64; 256],
    pub ring: Ring,
}

// What `take_into` and `take_events` answer.
#[derive(Drop)]
pub struct Batch {
    pub count: usize,
    pub ring: Ring,
}

#[derive(Drop)]
pub struct Bulk {
    pub count: usize,
    pub queue: Queue,
}

// ---- timers

// A timer as it is after a wipe.
pub fn fresh() -> Timer
    ensures { result ≡ fresh_timer }
{
    Timer {
        start: 0.0,
        seen: 0,
        pending: false,
    }
}

pub fn sysclk(clock: u32) -> f64
    ensures { result ≡ sysclk_of clock }
{
    if clock == 0 { 24000000.0 } else { clock as f64 }
}

pub fn rate(clock: u32, control: u32) -> f64
    ensures { result ≡ rate_of clock control }
{
    let c = sysclk(clock);
    if control & 1 != 0 { c / 256.0 } else { c / 2.0 }
}

pub fn period(reload: u32) -> u64
    ensures { result ≡ period_of reload }
{
    0x1_0000 - (reload % 0x1_0000) as u64
}

pub fn elapsed(start: f64, now: f64, rate: f64) -> u64
    ensures { result ≡ elapsed_of start now rate }
{
    let t = (now - start) * rate;
    if t > 0.0 { whole::whole(t) } else { 0 }
}

// The counter as it is read. A timer that does not run has the word that was stored.
pub fn counter(t: Timer, now: f64, clock: u32, control: u32, reload: u32, stored: u32) -> u32
    ensures { result ≡ counter_of t now clock control reload stored }
{
    if control & 0x2000 == 0 {
        return stored;
    }
    let p = period(reload);
    let e = elapsed(t.start, now, rate(clock, control));
    ((0x1_0000 - p + e % p) % 0x1_0000) as u32
}

// The control word as it is read: bit 15 says what is pending.
pub fn read_ctrl(t: Timer, stored: u32) -> u32
    ensures { result ≡ control_of t stored }
{
    if t.pending {
        stored & 0xFFFF_7FFF | 0x8000
    } else {
        stored & 0xFFFF_7FFF
    }
}

fn cleared(t: Timer, val: u32) -> bool
    ensures { result ≡ cleared_of t val }
{
    t.pending & (val & 0x8000 == 0)
}

// A write of val over the control word old.
pub fn write_ctrl(t: Timer, now: f64, val: u32, old: u32) -> Written
    ensures { result ≡ written_of t now val old }
{
    let pending = cleared(t, val);
    let control = val & 0xFFFF_7FFF;
    if (val & 0x2000 != 0) & (old & 0x2000 == 0) {
        return Written {
            timer: Timer {
                start: now,
                seen: 0,
                pending,
            },
            control,
        };
    }
    Written {
        timer: Timer { pending, ..t },
        control,
    }
}

pub fn advance(t: Timer, now: f64, clock: u32, control: u32, reload: u32) -> Timer
    ensures { result ≡ advanced_of t now clock control reload }
{
    if control & 0x2000 == 0 {
        return t;
    }
    let periods = elapsed(t.start, now, rate(clock, control)) / period(reload);
    if periods <= t.seen {
        return t;
    }
    Timer {
        seen: periods,
        pending: t.pending | (control & 0x4000 != 0),
        ..t
    }
}

// The periods seen, counted anew: `timers_resync` of one timer.
pub fn resync(t: Timer, now: f64, clock: u32, control: u32, reload: u32) -> Timer
    ensures { result ≡ resynced_of t now clock control reload }
{
    if control & 0x2000 == 0 {
        return Timer { seen: 0, ..t };
    }
    let periods = elapsed(t.start, now, rate(clock, control)) / period(reload);
    Timer { seen: periods, ..t }
}
