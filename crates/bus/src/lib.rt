// The bus: what the CPU sees of memories, registers and devices. `System` of core/src/sys.rs.
//
// The work is done over lent arrays: the registers, the memories, and the bank of crate state, which holds every
// scalar of the devices. The functions take memories of any length: what lies past the end of one reads as 0 and is
// not stored.
#![tactic(auto)]

mod chip;
pub mod read;
mod rtc;
mod screen;
mod sounds;
mod words;
pub mod write;

// What a write that is accepted answers: whether the tone changed, which is an event at the time that the bank has. It
// is a struct so that there is room for what later requests report.
#[derive(Drop)]
pub struct Accepted {
    pub event: bool,
}
