// Replays a fixed list of steps through the code of flashsteps. Its stdout is what the Rust answered: see README.md
// beside src/.
#![tactic(auto)]

fn main(rt: HostRuntime) {
    steps::talk::serve(flash::Mode::Rust, &mut rt.stdin(), &mut rt.stdout());
}
