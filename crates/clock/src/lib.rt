// Time and game time, and the devices that count them: the RTC chip, the time of day, the periodic sources and the
// ADC. Their registers belong to the bus, which hands in the words that a function reads and stores those that it
// gives back.
#![tactic(auto)]

pub mod chip;
pub mod convert;
pub mod day;
pub mod pace;
pub mod sources;

// Emulated time, game time, and how much faster game time goes.
#[derive(Clone, Copy)]
pub struct Times {
    pub now: f64,
    pub game: f64,
    pub turbo: f64,
}

// What the RTC chip holds beside its registers: the ticks that were latched, the game time at which they were, and
// what it put out. The ticks are the 64 bits of the Rust's i64.
#[derive(Clone, Copy)]
pub struct Latch {
    pub base: u64,
    pub since: f64,
    pub out: u32,
}

#[derive(Clone, Copy)]
pub struct Rtc {
    pub regs: [u8; 256],
    pub latch: Latch,
}

// The SoC's clock: seconds signalled, the time of day that was set, and the game time at which it was.
#[derive(Clone, Copy)]
pub struct RtcIrq {
    pub fired: u64,
    pub base: u32,
    pub set: f64,
}

// What a periodic source has counted and a status word, after time went on.
#[derive(Drop)]
pub struct Signal {
    pub seen: u64,
    pub status: u32,
}

#[derive(Drop)]
pub struct Ticked {
    pub irq: RtcIrq,
    pub status: u32,
}

// Whether the ADC converts, and its control and result words.
#[derive(Drop)]
pub struct Adc {
    pub converting: bool,
    pub control: u32,
    pub result: u32,
}
