// Answers a list that lays down scripts and runs them: see README.md beside src/.
#![tactic(auto)]

mod desk;
mod kind;
mod memories;
mod script;

fn main(rt: HostRuntime) {
    let mut desk = desk::Desk::default();
    desk.clear_answers();
    lines::serve(&mut desk, &mut rt.stdin(), &mut rt.stdout());
}
