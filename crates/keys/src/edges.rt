// The keys' part of `next_event`: when a press or a tap next begins or ends.
ghost use Rattle.std.specs.Prelude.{◌≡◌};
ghost use Rattle.keys.specs.Edges.{min_of, after_of, edges_of, press_edges, hold_edges, next_edge};

use crate::presses::places;
use crate::{Holds, Keys};

// Not f64::min, which says otherwise where the first is a NaN, and does not say which of two zeros it gives.
pub fn min(a: f64, b: f64) -> f64
    ensures { result ≡ min_of a b }
{
    if b < a { b } else { a }
}

fn after(time: f64, t: f64, edge: f64) -> f64
    ensures { result ≡ after_of time t edge }
{
    if edge > time { min(t, edge) } else { t }
}

// The two edges of a press.
fn edges(k: f64, time: f64, t: f64) -> f64
    ensures { result ≡ edges_of k time t }
{
    after(time, after(time, t, k), k + 0.15)
}

fn press_edges(starts: &[f64; 64], count: usize, time: f64, t: f64) -> f64
    ensures { result ≡ press_edges starts.now count time t }
{
    let n = places(count);
    let mut r = t;
    for k in &starts[..n] {
        r = edges(*k, time, r);
    }
    r
}

fn hold_edges(holds: Holds, time: f64, t: f64) -> f64
    ensures { result ≡ hold_edges holds time t }
{
    after(time, after(time, after(time, t, holds.a), holds.b), holds.c)
}

// The earliest of t and of the keys' edges after `time`.
pub fn next_edge(starts: &[f64; 64], keys: Keys, time: f64, t: f64) -> f64
    ensures { result ≡ next_edge starts.now keys time t }
{
    hold_edges(keys.holds, time, press_edges(starts, keys.count, time, t))
}
