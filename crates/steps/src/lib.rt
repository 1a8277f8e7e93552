// A session with a flash: one step a line, as program flashsteps takes them.
//
// The input is taken byte by byte, so a line of any length takes no room. The page and the array are lent apart from
// the session, as crate flash has them: `feed` and `finish`, which docs/PROMISES.md names, take them so.
#![tactic(auto)]

mod parse;
pub mod talk;
mod text;

ghost use Rattle.std.specs.Prelude.{◌≡◌};
ghost use Rattle.steps.specs.Machine.{world, world_output, next_line, with_line, session_over, grown, chosen};
ghost use Rattle.steps.specs.Inner.{fed_with};
ghost use Rattle.steps.specs.Machine.{sent, line_done, fed, finished};

use flash::Chip;
use parse::{grow, is_empty, step_of};

// The line so far: its bytes, as far as they can matter.
#[derive(Clone, Copy)]
pub enum Line {
    Empty,
    One(u8),
    Two(u8, u8),
    Longer,
}

// What a whole line says. (Other is no None: `and_then Other` of specs/Lines.antt holds it, which docs/PROMISES.md
// names.)
#[derive(Drop)]
pub enum Step {
    Select,
    Deselect,
    Byte(u8),
    Other,
}

// What is to be printed: nothing, a transfer's answer, or the number of a line that is none of the three. (Three cases
// of one kind: an Option of the other two would be matched in two steps, here and in `text_of` of specs/Text.antt.)
#[derive(Drop)]
pub enum Output {
    Nothing,
    Answer(u8),
    Bad(u64),
}

// Lines are numbered from 1. Once a line was bad the session is over.
#[derive(Clone, Copy)]
pub struct Session {
    pub chip: Chip,
    pub line: Line,
    pub number: u64,
    pub over: bool,
}

#[derive(Drop)]
pub struct Fed {
    pub session: Session,
    pub output: Output,
}

// One byte of the input.
#[tactic(auto, unfolding(crate::specs::Machine::fed))]
pub fn feed(session: Session, page: &mut [u8; 256], array: &mut [u8], byte: u8) -> Fed
    ensures { world_output result page.new array.new ≡ fed
        (world session page.old array.old) byte }
{
    if session.over {
        return quiet(session);
    }
    if byte == b'\n' {
        return end_line(session, page, array);
    }
    quiet(longer(session, byte))
}

// The end of the input. Its last line may lack the newline.
#[tactic(auto, unfolding(crate::specs::Machine::finished))]
pub fn finish(session: Session, page: &mut [u8; 256], array: &mut [u8]) -> Fed
    ensures { world_output result page.new array.new ≡ finished
        (world session page.old array.old) }
{
    if session.over || is_empty(session.line) {
        return quiet(session);
    }
    end_line(session, page, array)
}

// Nothing is to be printed.
fn quiet(session: Session) -> Fed
    ensures { result ≡ fed_with session Output.Nothing }
{
    Fed {
        session,
        output: Output::Nothing,
    }
}

fn longer(session: Session, byte: u8) -> Session
    ensures { result ≡ with_line session (grown session.line byte) }
{
    Session {
        line: grow(session.line, byte),
        ..session
    }
}

fn next_line(chip: Chip, number: u64) -> Session
    ensures { result ≡ next_line chip number }
{
    Session {
        chip,
        line: Line::Empty,
        number: number.wrapping_add(1),
        over: false,
    }
}

// A line that is no step ends the session.
fn reject(session: Session) -> Fed
    ensures { result ≡ fed_with (session_over session) (Output.Bad session.number) }
{
    Fed {
        session: Session {
            over: true,
            ..session
        },
        output: Output::Bad(session.number),
    }
}

// A select or a deselect.
#[tactic(auto, unfolding(crate::specs::Machine::chosen))]
fn choose(session: Session, page: &mut [u8; 256], array: &mut [u8], on: bool) -> Fed
    ensures { world_output result page.new array.new ≡ chosen
        (world session page.old array.old) on }
{
    let chip = flash::select(session.chip, page, array, on).unwrap_or(session.chip);
    quiet(next_line(chip, session.number))
}

// A transfer. The flash refuses an array of another size and answers 0, and so does the session.
#[tactic(auto, unfolding(crate::specs::Machine::sent))]
fn send(session: Session, page: &mut [u8; 256], array: &[u8], byte: u8) -> Fed
    ensures { world_output result page.new array.now ≡ sent
        (world session page.old array.now) byte }
{
    let refused = (0, session.chip);
    let (answer, chip) = flash::transfer(session.chip, page, array, byte).unwrap_or(refused);
    Fed {
        session: next_line(chip, session.number),
        output: Output::Answer(answer),
    }
}

// The line is whole.
fn end_line(session: Session, page: &mut [u8; 256], array: &mut [u8]) -> Fed
    ensures { world_output result page.new array.new ≡ line_done
        (world session page.old array.old) }
{
    match step_of(session.line) {
        Step::Select => choose(session, page, array, true),
        Step::Deselect => choose(session, page, array, false),
        Step::Byte(byte) => send(session, page, array, byte),
        Step::Other => reject(session),
    }
}
