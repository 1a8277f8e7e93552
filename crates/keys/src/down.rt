// Keys held down right now, taps that stay held, and which keys are down at a time.
ghost use Rattle.std.specs.Prelude.{◌≡◌, false, ℕ, ◌+◌, ◌≤◌, ◌<◌, get_or};
ghost use Rattle.std.specs.Float.{nan};
ghost use Rattle.keys.specs.Live.{key_refusal, tap_of, down_of, tapped, also, held_from, held_of};

use crate::presses::places;
use crate::{Held, Holds, Keys};
use map::Refusal;
use whole::limits::Given;

// There are three keys.
pub fn check_key(key: u32) -> Result<(), Refusal>
    ensures { result ≡ key_refusal key }
{
    if key > 2 {
        return Err(Refusal::BadKey);
    }
    Ok(())
}

// Until when a tap stays held, decided before anything changes: the key is looked at first, then the time.
pub fn check_hold<T: Given>(key: u32, until: T) -> Result<f64, Refusal>
    ensures { result ≡ tap_of key (T.float until) }
{
    if key > 2 {
        return Err(Refusal::BadKey);
    }
    let Some(until) = until.time() else {
        return Err(Refusal::BadTime);
    };
    Ok(until)
}

// A press is held for 0.15 seconds.
fn down(t: f64, time: f64) -> bool
    ensures { result ≡ down_of t time }
{
    (t <= time) & (time < t + 0.15)
}

// The live keys, and the taps that are still held.
fn tapped(live: Held, holds: Holds, time: f64) -> Held
    ensures { result ≡ tapped live holds time }
{
    Held {
        a: live.a | (time < holds.a),
        b: live.b | (time < holds.b),
        c: live.c | (time < holds.c),
    }
}

// One press more.
fn also(held: Held, t: f64, code: u8, time: f64) -> Held
    ensures { result ≡ also held t code time }
{
    if down(t, time) {
        return Held {
            a: held.a | (code == 0),
            b: held.b | (code == 1),
            c: held.c | (code == 2),
        };
    }
    held
}

// Whether any of the 8 presses from a place on is down. It looks at all of them and never stops early, so that several
// are compared at once.
fn any_down(starts: &[f64; 64], from: usize, time: f64) -> bool
    requires { from + 8 ≤ 64 }
    ensures { result ≡ false → (j : ℕ) → j < 8
        → down_of (get_or starts.now (from + j) nan) time ≡ false }
{
    let mut on = false;
    for t in &starts[from..from + 8] {
        on = on | down(*t, time);
    }
    on
}

// The presses from a place up to another more, one by one.
fn also_each(
    starts: &[f64; 64],
    codes: &[u8; 64],
    from: usize,
    to: usize,
    time: f64,
    start: Held,
) -> Held
    requires { (from ≤ to) × (to ≤ 64) }
    ensures { (h : Held) → start ≡ held_from starts.now codes.now h time from
        → result ≡ held_from starts.now codes.now h time to }
{
    let mut held = start;
    for i in from..to {
        held = also(held, starts[i], codes[i], time);
    }
    held
}

// The presses of 8 places more. Mostly none of them is down, and then nothing changes.
fn also_block(starts: &[f64; 64], codes: &[u8; 64], from: usize, time: f64, held: Held) -> Held
    requires { from + 8 ≤ 64 }
    ensures { (h : Held) → held ≡ held_from starts.now codes.now h time from
        → result ≡ held_from starts.now codes.now h time (from + 8) }
{
    if any_down(starts, from, time) {
        return also_each(starts, codes, from, from + 8, time, held);
    }
    held
}

// Which keys are down at `time` (scripted, live, or a tap still held). The presses are asked 8 at a time, as far as 8
// are left.
pub fn keys_held(starts: &[f64; 64], codes: &[u8; 64], keys: Keys, time: f64) -> Held
    ensures { result ≡ held_of starts.now codes.now keys time }
{
    let n = places(keys.count);
    let mut held = tapped(keys.live, keys.holds, time);
    let mut i = 0usize;
    // No for over whole blocks: with one, `keys, colours, counters` of bench/ needs 1.053 of the Rust's instructions,
    // and so 1.042. The bar is 1.05.
    while i + 8 <= n {
        held = also_block(starts, codes, i, time, held);
        i += 8usize;
    }
    also_each(starts, codes, i, n, time, held)
}
