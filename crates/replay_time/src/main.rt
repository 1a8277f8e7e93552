// Answers a list of steps for timers, sound, clocks and ADC: see README.md beside src/.
#![tactic(auto)]

mod advance;
mod desk;
mod kind;
mod look;
mod place;
mod put;
mod read;
mod write;

fn main(rt: HostRuntime) {
    lines::serve(&mut desk::fresh(), &mut rt.stdin(), &mut rt.stdout());
}
