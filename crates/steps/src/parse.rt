// What a line says.
ghost use Rattle.std.specs.Prelude.{◌≡◌, ◌<◌, IfSome};
ghost use Rattle.std.specs.Option.{unwrap_or};
ghost use Rattle.steps.specs.Rule.{digit_of, sign_of, pair_of};
ghost use Rattle.steps.specs.Machine.{grown, says, is_empty};

use crate::{Line, Step};

pub(crate) fn is_empty(line: Line) -> bool
    ensures { result ≡ is_empty line }
{
    matches!(line, Line::Empty)
}

// The line with one byte more, which is no newline.
pub(crate) fn grow(line: Line, byte: u8) -> Line
    ensures { result ≡ grown line byte }
{
    match line {
        Line::Empty => Line::One(byte),
        Line::One(first) => Line::Two(first, byte),
        Line::Two(_, _) | Line::Longer => Line::Longer,
    }
}

pub(crate) fn step_of(line: Line) -> Step
    ensures { result ≡ says line }
{
    match line {
        Line::Empty => Step::Other,
        Line::One(byte) => sign(byte),
        Line::Two(first, second) => pair(first, second),
        Line::Longer => Step::Other,
    }
}

#[tactic(auto, unfolding(crate::specs::Rule::sign_of))]
fn sign(byte: u8) -> Step
    ensures { result ≡ sign_of byte }
{
    match byte {
        b'+' => Step::Select,
        b'-' => Step::Deselect,
        _ => Step::Other,
    }
}

#[tactic(auto, unfolding(crate::specs::Rule::pair_of))]
fn pair(first: u8, second: u8) -> Step
    ensures { result ≡ pair_of first second }
{
    match (digit(first), digit(second)) {
        (Some(high), Some(low)) => Step::Byte(high * 16 + low),
        _ => Step::Other,
    }
}

// The value of a lowercase hex digit. (Crate lines has such digits too, in a format where any other byte counts as 0.)
#[tactic(auto, unfolding(crate::specs::Rule::digit_of))]
fn digit(byte: u8) -> Option<u8>
    ensures below { IfSome result (λ d. d < 16) }
    ensures value { unwrap_or result 16 ≡ digit_of byte }
{
    match byte {
        b'0'..=b'9' => Some(byte - b'0'),
        b'a'..=b'f' => Some(byte - b'a' + 10),
        _ => None,
    }
}
