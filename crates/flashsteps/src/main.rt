// Steps of a flash from standard input, one a line, answered on standard output.
#![tactic(auto)]

fn main(rt: HostRuntime) {
    steps::talk::serve(flash::Mode::Rust, &mut rt.stdin(), &mut rt.stdout());
}
