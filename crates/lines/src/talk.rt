// A list from a reader, its answers to a writer.
ghost use Rattle.std.specs.Prelude.{Option};
ghost use Rattle.lines.specs.Served.{Served};
ghost use Rattle.lines.specs.declared.Step.{Step};
ghost use Rattle.lines.specs.declared.Answer.{Answer};

use crate::{Answer, Step, next, spell};
use std::io::{Read, Write};

// What a program works its steps on.
pub trait Machine {
    // What a step may answer, and the machine after it. A machine that leaves this out promises nothing.
    ghost steps: { Self → Step → Option Answer → Self → Type 0 } = { λ _ _ _ _. Unit {0} };

    // A step that has no answer ends the list.
    fn step(&mut self, asked: Step) -> Option<Answer>
        ensures { steps self.old asked result self.new };
}

// Nothing says that the input ends, so the turns are counted, up to a number that no run uses up. An answer that can't
// be written is lost: a partner that is gone misses nothing.
pub fn serve<M: Machine, R: Read, W: Write>(machine: &mut M, input: &mut R, output: &mut W)
    ensures { Served M.steps machine.old machine.new (R.remaining input.old) }
{
    for _ in 0..u64::MAX {
        let Some(asked) = next(input) else {
            return;
        };
        let Some(answer) = machine.step(asked) else {
            return;
        };
        let _ = output.write_all(&spell(answer));
    }
}
