// Presses that wait, written: a key, and a time.
ghost use Rattle.std.specs.Prelude.{◌≡◌, ◌+◌, ◌≤◌, length};
ghost use Rattle.keys.specs.Script.{waiting_in};
ghost use Rattle.session.specs.Sections.{press_row, press_if, press_bytes, presses_section};
ghost use Rattle.saving.specs.Inner.{Laid};

use crate::numbers::{put, put_float};
use keys::presses::waits;

pub(crate) fn count(starts: &[f64; 64], time: f64, n: usize) -> usize
    requires { n ≤ 64 }
    ensures { (result ≡ waiting_in starts.now time n) × (result ≤ n) }
{
    starts[..n]
        .iter()
        .filter(|&&start| waits(start, time))
        .count()
}

fn lay_press(out: &mut [u8], at: usize, code: u8, start: f64) -> usize
    requires { at + length (press_row code start) ≤ length out.old }
    ensures { Laid out.old out.new at result (press_row code start) }
{
    let next = put(out, at, 1, u64::from(code));
    put_float(out, next, start)
}

// Nothing for one that has expired.
fn lay_if(out: &mut [u8], at: usize, code: u8, start: f64, time: f64) -> usize
    requires { at + length (press_if code start time) ≤ length out.old }
    ensures { Laid out.old out.new at result (press_if code start time) }
{
    if waits(start, time) {
        return lay_press(out, at, code, start);
    }
    at
}

fn lay_presses(
    out: &mut [u8],
    at: usize,
    starts: &[f64; 64],
    codes: &[u8; 64],
    time: f64,
    n: usize,
) -> usize
    requires { (at + length (press_bytes starts.now codes.now time n) ≤ length out.old) × (n ≤ 64) }
    ensures { Laid out.old out.new at result
        (press_bytes starts.now codes.now time n) }
{
    let mut next = at;
    for i in 0..n {
        next = lay_if(out, next, codes[i], starts[i], time);
    }
    next
}

// With how many wait in front.
pub(crate) fn lay_section(
    out: &mut [u8],
    at: usize,
    starts: &[f64; 64],
    codes: &[u8; 64],
    time: f64,
    n: usize,
    k: usize,
) -> usize
    requires { (at + length (presses_section starts.now codes.now time n k) ≤ length out.old) × (n ≤ 64) }
    ensures { Laid out.old out.new at result
        (presses_section starts.now codes.now time n k) }
{
    let first = put(out, at, 4, k as u64);
    lay_presses(out, first, starts, codes, time, n)
}
