// Sound events that wait, written, oldest first: a time, a frequency and a duty.
ghost use Rattle.std.specs.Prelude.{◌≡◌, ◌+◌, ◌≤◌, length};
ghost use Rattle.timer.specs.Events.{queue_of, event_of};
ghost use Rattle.timer.specs.Straight.{held_of};
ghost use Rattle.session.specs.Sections.{event_row, event_bytes, events_section};
ghost use Rattle.saving.specs.Inner.{Laid};

use crate::numbers::{put, put_float};
use timer::{Event, Ring};

// A count above 256 counts as 256.
pub(crate) fn held(ring: Ring) -> usize
    ensures { (result ≡ held_of ring) × (result ≤ 256) }
{
    ring.count.min(256)
}

fn lay_event(out: &mut [u8], at: usize, e: Event) -> usize
    requires { at + length (event_row e) ≤ length out.old }
    ensures { Laid out.old out.new at result (event_row e) }
{
    let next = put_float(out, at, e.time);
    let last = put_float(out, next, e.frequency);
    put_float(out, last, e.duty)
}

fn event(
    onsets: &[f64; 256],
    frequencies: &[f64; 256],
    duties: &[f64; 256],
    ring: Ring,
    i: usize,
) -> Event
    ensures { result ≡ event_of (queue_of onsets.now frequencies.now duties.now ring)
        i }
{
    let at = (usize::from(ring.head) + i % 256) % 256;
    Event {
        time: onsets[at],
        frequency: frequencies[at],
        duty: duties[at],
    }
}

fn lay_events(
    out: &mut [u8],
    at: usize,
    onsets: &[f64; 256],
    frequencies: &[f64; 256],
    duties: &[f64; 256],
    ring: Ring,
    n: usize,
) -> usize
    requires { (at
        + length (event_bytes (queue_of onsets.now frequencies.now duties.now ring) n) ≤ length out.old)
        × (n ≤ 256) }
    ensures { Laid out.old out.new at result
        (event_bytes (queue_of onsets.now frequencies.now duties.now ring) n) }
{
    let mut next = at;
    for i in 0..n {
        next = lay_event(out, next, event(onsets, frequencies, duties, ring, i));
    }
    next
}

// With how many wait in front.
pub(crate) fn lay_section(
    out: &mut [u8],
    at: usize,
    onsets: &[f64; 256],
    frequencies: &[f64; 256],
    duties: &[f64; 256],
    ring: Ring,
    n: usize,
) -> usize
    requires { (at
        + length (events_section (queue_of onsets.now frequencies.now duties.now ring) n) ≤ length out.old)
        × (n ≤ 256) }
    ensures { Laid out.old out.new at result
        (events_section (queue_of onsets.now frequencies.now duties.now ring) n) }
{
    let oldest = put(out, at, 4, n as u64);
    lay_events(out, oldest, onsets, frequencies, duties, ring, n)
}
