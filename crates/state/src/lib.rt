// The state beside its arrays: what each part is, and the bank, which holds every scalar in two lent arrays of numbers.
//
// A part is taken out of the bank as a struct and put back by itself, so that a call moves what it needs and a host
// can keep the state where it likes. Any numbers are a state: a flag is a cell that is not 0, a number of fewer bits
// the cell modulo its width.
#![tactic(auto)]

pub mod chips;
pub mod moments;
mod numbers;
pub mod panels;
mod places;
pub mod rests;
pub mod wholes;

use clock::{Latch, RtcIrq, Times};
use flash::Chip;
use keys::Keys;
use panel::Panel;
use timer::{Ring, Timer, Tone};

// The bank, and how many numbers it has.
pub const CELLS: usize = 51;

pub const FLOATS: usize = 16;

pub type Cells = [u64; CELLS];

pub type Floats = [f64; FLOATS];

// What time moves. `vsync` is the Rust's last_vsync, `converting` its adc_converting.
#[derive(Clone, Copy)]
pub struct Clocks {
    pub times: Times,
    pub timers: [Timer; 6],
    pub irq: RtcIrq,
    pub vsync: u64,
    pub converting: bool,
}

// What the devices hold beside arrays.
#[derive(Clone, Copy)]
pub struct Devices {
    pub flash: Chip,
    pub panel: Panel,
    pub clocks: Clocks,
    pub latch: Latch,
    pub tone: Tone,
    pub off: bool,
}

// What the bank holds.
#[derive(Drop)]
pub struct Parts {
    pub devices: Devices,
    pub ring: Ring,
    pub keys: Keys,
}
