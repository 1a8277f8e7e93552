// The whole: `System` of core/src/sys.rs by value, beside the lent memories.
//
// Each call takes the state and gives the later one, or says why it refuses; then the state is the one that was given.
// What is lent is a memory of any length: what lies past its end reads as 0 and is not stored. A caller that steps
// often uses the functions of crates bus and time, which these are around, and wipe's reset and wipe_all, over lent
// arrays.
#![tactic(auto)]

pub mod access;
pub mod buttons;
pub mod look;
pub mod moment;
mod parts;
pub mod wipe;

use keys::Keys;
use registers::Registers;
use state::Devices;
use timer::Queue;

// Scripted presses: when each starts and its key, in 64 places.
#[derive(Clone, Copy)]
pub struct Presses {
    pub starts: [f64; 64],
    pub codes: [u8; 64],
}

#[derive(Clone, Copy)]
pub struct System {
    pub registers: Registers,
    pub rtc: [u8; 256],
    pub page: [u8; 256],
    pub devices: Devices,
    pub queue: Queue,
    pub presses: Presses,
    pub keys: Keys,
}

// Frames drawn, flash writes, and whether the power is off.
#[derive(Drop)]
pub struct Counters {
    pub frames: u64,
    pub writes: u64,
    pub off: bool,
}
