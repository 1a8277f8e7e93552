// Scripted presses, `key_script` of the Rust, in 64 places. A press that has expired gives its place back.
ghost use Rattle.std.specs.Prelude.{◌≡◌, not, ◌<◌};
ghost use Rattle.map.specs.Refusals.{number_of, value_or};
ghost use Rattle.keys.specs.Script.{places_of, waits, free_of, counted_of, script, outcome, put_of, press_of};

use map::Refusal;
use whole::limits::Given;

// How many places hold presses.
pub fn places(count: usize) -> usize
    ensures { result ≡ places_of count }
{
    count.min(64)
}

pub fn waits(t: f64, time: f64) -> bool
    ensures { result ≡ waits t time }
{
    t + 0.15 > time
}

fn expired(t: f64, time: f64) -> bool
    ensures { result ≡ not (waits t time) }
{
    !waits(t, time)
}

// The first place whose press has expired, or the place after the last.
fn free(starts: &[f64; 64], count: usize, time: f64) -> usize
    ensures { result ≡ free_of starts.now count time }
{
    let n = places(count);
    for (i, t) in starts[..n].iter().enumerate() {
        if expired(*t, time) {
            return i;
        }
    }
    n
}

fn counted(place: usize, count: usize) -> usize
    requires { place < 64 }
    ensures { result ≡ counted_of place count }
{
    let n = places(count);
    n.max(place + 1)
}

fn put(
    starts: &mut [f64; 64],
    codes: &mut [u8; 64],
    count: usize,
    code: u8,
    at: f64,
    time: f64,
) -> Result<usize, Refusal>
    ensures { outcome (number_of result) (script starts.new codes.new (value_or result count))
        ≡ put_of (script starts.old codes.old count) code at time }
{
    let place = free(&*starts, count, time);
    if place < 64 {
        starts[place] = at;
        codes[place] = code;
        return Ok(counted(place, count));
    }
    Err(Refusal::KeysFull)
}

// A press of `key` at a time, asked for at `time`: how many places then hold presses.
pub fn press<T: Given>(
    starts: &mut [f64; 64],
    codes: &mut [u8; 64],
    count: usize,
    key: u32,
    at: T,
    time: f64,
) -> Result<usize, Refusal>
    ensures { outcome (number_of result) (script starts.new codes.new (value_or result count))
        ≡ press_of (script starts.old codes.old count) key (T.float at) time }
{
    if key > 2 {
        return Err(Refusal::BadKey);
    }
    let Some(at) = at.time() else {
        return Err(Refusal::BadTime);
    };
    put(starts, codes, count, key as u8, at, time)
}
