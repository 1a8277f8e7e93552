// A line of a list: two digits, a space, eight digits, a space, sixteen digits, and a newline.
ghost use Rattle.std.specs.Prelude.{◌≡◌, ◌+◌, ◌*◌, ◌%◌, ◌^◌, ◌<◌, ◌≤◌};
ghost use Rattle.lines.specs.Line.{digit_of, number_at, step_of};

use crate::Step;

// The value of a lowercase hex digit. Any other byte counts as 0.
#[tactic(auto, unfolding(crate::specs::Line::digit_of))]
fn digit(byte: u8) -> u8
    ensures value { result ≡ digit_of byte }
    ensures upper_bound { result < 16 }
{
    match byte {
        b'0'..=b'9' => byte - b'0',
        b'a'..=b'f' => byte - b'a' + 10,
        _ => 0,
    }
}

// The number with one digit more. What has no room in 64 bits falls off at the front.
fn shifted(n: u64, byte: u8) -> u64
    ensures { result ≡ (n * 16 + digit_of byte) % 2 ^ 64 }
{
    n % 0x1000_0000_0000_0000 * 16 + u64::from(digit(byte))
}

// The number that some digits of the line are.
#[tactic(auto, using(crate::proofs::Laws::number_more), unfolding(crate::specs::Line::number_at))]
fn number_at(line: &[u8; 29], from: usize, width: usize) -> u64
    requires { from + width ≤ 29 }
    ensures { result ≡ number_at line.now from width }
{
    let mut n = 0;
    for &byte in &line[from..from + width] {
        n = shifted(n, byte);
    }
    n
}

// The spaces and the newline are not looked at.
pub(crate) fn step_of(line: &[u8; 29]) -> Step
    ensures { result ≡ step_of line.now }
{
    Step {
        kind: number_at(line, 0, 2),
        address: number_at(line, 3, 8),
        value: number_at(line, 12, 16),
    }
}
