// Sound events that wait, judged and read, oldest first: a time, a frequency and a duty.
ghost use Rattle.std.specs.Prelude.{◌≡◌, ◌+◌, ◌*◌, ◌≤◌, length};
ghost use Rattle.session.specs.Read.{column_in};
ghost use Rattle.session.specs.Good.{good_event, good_events};

use crate::numbers::number;

fn good_event(time: f64, frequency: f64, duty: f64) -> bool
    ensures { result ≡ good_event time frequency duty }
{
    whole::limits::good_time(time)
        & (whole::limits::finite(frequency) & whole::limits::finite(duty))
}

pub(crate) fn good_events(s: &[u8], from: usize, e: usize) -> bool
    requires { (from + 24 * e ≤ length s.now) × (e ≤ 256) }
    ensures { result ≡ good_events s.now from e }
{
    for i in 0..e {
        let at = from + 24 * i;
        let time = whole::limits::float_of(number(s, at, 8));
        let frequency = whole::limits::float_of(number(s, at + 8, 8));
        let duty = whole::limits::float_of(number(s, at + 16, 8));
        if !good_event(time, frequency, duty) {
            return false;
        }
    }
    true
}

// Of e rows from a place on, the numbers of a column; places past the last row hold 0.0.
fn read_column(s: &[u8], from: usize, e: usize, l: &mut [f64; 256])
    requires { (from + 24 * e ≤ length s.now + 16) × (e ≤ 256) }
    ensures { l.new ≡ column_in s.now from e }
{
    *l = [0.0; 256];
    for i in 0..e {
        l[i] = whole::limits::float_of(number(s, from + 24 * i, 8));
    }
}

pub(crate) fn read_events(
    s: &[u8],
    from: usize,
    e: usize,
    onsets: &mut [f64; 256],
    frequencies: &mut [f64; 256],
    duties: &mut [f64; 256],
)
    requires { (from + 24 * e ≤ length s.now) × (e ≤ 256) }
    ensures { (onsets.new ≡ column_in s.now from e)
        × ((frequencies.new ≡ column_in s.now (from + 8) e)
        × (duties.new ≡ column_in s.now (from + 16) e)) }
{
    read_column(s, from, e, onsets);
    read_column(s, from + 8, e, frequencies);
    read_column(s, from + 16, e, duties);
}
