// Lists of steps: each step a line of 29 bytes, each answer a line of 54. See README.md beside src/.
#![tactic(auto)]

mod bytes;
mod memories;
mod parse;
mod talk;
mod text;

ghost use Rattle.std.specs.Prelude.{◌≡◌, IfSome};
ghost use Rattle.lines.specs.Line.{answer, Read};
ghost use Rattle.lines.specs.Served.{Taken};

pub use bytes::{digest, lent};
pub use memories::Memories;
use parse::step_of;
use std::io::Read;
pub use talk::{Machine, serve};
pub use text::spell;

// What a line says.
#[derive(Clone, Copy)]
pub struct Step {
    pub kind: u64,
    pub address: u64,
    pub value: u64,
}

// What a step answers: its refusal, 0 if there is none, and three words. (A Result can't say it: an answer of a script,
// which replay_script shows, has both.)
#[derive(Clone, Copy)]
pub struct Answer {
    pub refusal: u8,
    pub a: u64,
    pub b: u64,
    pub c: u64,
}

// A kind that no step of a program has.
#[derive(Clone, Copy, Debug, PartialEq, Eq)]
pub struct UnknownKind(pub u64);

pub fn answered(a: u64, b: u64, c: u64) -> Answer
    ensures { result ≡ answer 0 a b c }
{
    Answer {
        refusal: 0,
        a,
        b,
        c,
    }
}

// A refusal has no words beside it.
pub fn refused(refusal: u8) -> Answer
    ensures { result ≡ answer refusal 0 0 0 }
{
    Answer {
        refusal,
        a: 0,
        b: 0,
        c: 0,
    }
}

// The next line of a list. What is shorter than a line ends it, and so does a read that fails.
pub fn next<R: Read>(input: &mut R) -> Option<Step>
    ensures read { Read result }
    ensures taken { IfSome result (Taken (R.remaining input.old) (R.remaining input.new)) }
{
    let mut line = [0u8; 29];
    input.read_exact(&mut line).ok()?;
    Some(step_of(&line))
}
