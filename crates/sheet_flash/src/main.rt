// Sequences of the data sheet, in strict mode. Its stdout was worked out by hand from the sheet's facts: see
// README.md beside src/.
#![tactic(auto)]

fn main(rt: HostRuntime) {
    steps::talk::serve(flash::Mode::Strict, &mut rt.stdin(), &mut rt.stdout());
}
