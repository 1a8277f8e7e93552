// Answers a list of steps for the whole bus: see README.md beside src/.
#![tactic(auto)]

mod calls;
mod desk;
mod kind;
mod look;
mod memories;

fn main(rt: HostRuntime) {
    lines::serve(&mut desk::fresh(), &mut rt.stdin(), &mut rt.stdout());
}
