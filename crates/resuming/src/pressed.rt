// Presses that wait, judged and read: a key, and a time.
ghost use Rattle.std.specs.Prelude.{◌≡◌, ◌+◌, ◌*◌, ◌≤◌, length};
ghost use Rattle.session.specs.Read.{starts_in, codes_in};
ghost use Rattle.session.specs.Good.{good_press, good_presses};

use crate::numbers::{byte, number};
use keys::presses::waits;

fn good_press(code: u64, start: f64, time: f64) -> bool
    ensures { result ≡ good_press code start time }
{
    (code <= 2) & (whole::limits::good_time(start) & waits(start, time))
}

pub(crate) fn good_presses(s: &[u8], from: usize, k: usize, time: f64) -> bool
    requires { (from + 9 * k ≤ length s.now) × (k ≤ 64) }
    ensures { result ≡ good_presses s.now from time k }
{
    for i in 0..k {
        let at = from + 9 * i;
        let start = whole::limits::float_of(number(s, at + 1, 8));
        if !good_press(number(s, at, 1), start, time) {
            return false;
        }
    }
    true
}

// Places past the last press hold 0.
pub(crate) fn read_presses(
    s: &[u8],
    from: usize,
    k: usize,
    starts: &mut [f64; 64],
    codes: &mut [u8; 64],
)
    requires { (from + 9 * k ≤ length s.now) × (k ≤ 64) }
    ensures { (starts.new ≡ starts_in s.now from k)
        × (codes.new ≡ codes_in s.now from k) }
{
    *starts = [0.0; 64];
    *codes = [0; 64];
    for i in 0..k {
        let at = from + 9 * i;
        codes[i] = byte(s, at);
        starts[i] = whole::limits::float_of(number(s, at + 1, 8));
    }
}
