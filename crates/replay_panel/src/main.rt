// Answers a list of steps for the panel: see README.md beside src/.
#![tactic(auto)]

mod desk;
mod kind;
mod look;
mod pixels;
mod put;

fn main(rt: HostRuntime) {
    lines::serve(&mut desk::fresh(), &mut rt.stdin(), &mut rt.stdout());
}
