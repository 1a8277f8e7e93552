// Sound events that wait: a ring of 256 places, oldest first. A place that is given back holds zeros, and an empty
// ring starts at place 0 again, so that what waits says all of the state but where it starts.
ghost use Rattle.std.specs.Prelude.{◌≡◌};
ghost use Rattle.map.specs.Refusals.{number_of, value_or};
ghost use Rattle.timer.specs.Events.{nothing, place_of, skipped, queue_of, empty_queue, event_of, without, full_of};
ghost use Rattle.timer.specs.Events.{fit_of};
ghost use Rattle.timer.specs.Events.{put_outcome, put_of, take_outcome, take_of, drop_of};
ghost use Rattle.timer.specs.Inner.{lay_outcome, lay_of};
ghost use Rattle.timer.specs.Events.{batched, bulk_outcome, bulk_of};

use crate::{Batch, Bulk, Event, Queue, Ring};
use map::Refusal;

// The place of the i-th event from the oldest on.
fn place(ring: Ring, i: usize) -> usize
    ensures { result ≡ place_of ring i }
{
    (ring.head as usize + i % 256) % 256
}

// The ring without its n oldest events.
fn skip(ring: Ring, n: usize) -> Ring
    ensures { result ≡ skipped ring n }
{
    let count = ring.count;
    if n < count {
        return Ring {
            head: place(ring, n) as u8,
            count: count - n,
        };
    }
    Ring { head: 0, count: 0 }
}

// Whether there is no room for one event more.
pub fn full(ring: Ring) -> bool
    ensures { result ≡ full_of ring }
{
    ring.count >= 256
}

// One event more, the youngest. Three numbers are stored, and nothing is moved.
pub fn put_in(
    onsets: &mut [f64; 256],
    frequencies: &mut [f64; 256],
    duties: &mut [f64; 256],
    ring: Ring,
    event: Event,
) -> Result<Ring, Refusal>
    ensures { put_outcome (number_of result) (queue_of onsets.new frequencies.new duties.new
        (value_or result ring))
        ≡ put_of (queue_of onsets.old frequencies.old duties.old ring) event }
{
    let count = ring.count;
    if count >= 256 {
        return Err(Refusal::SoundFull);
    }
    let at = place(ring, count);
    onsets[at] = event.time;
    frequencies[at] = event.frequency;
    duties[at] = event.duty;
    Ok(Ring {
        head: ring.head,
        count: count + 1,
    })
}

fn event_in<'a>(
    onsets: &'a [f64; 256],
    frequencies: &'a [f64; 256],
    duties: &'a [f64; 256],
    ring: Ring,
    i: usize,
) -> Event
    ensures { result ≡ event_of (queue_of onsets.now frequencies.now duties.now ring)
        i }
{
    let at = place(ring, i);
    Event {
        time: onsets[at],
        frequency: frequencies[at],
        duty: duties[at],
    }
}

// The places of the n oldest events are given back.
fn drop_from(
    onsets: &mut [f64; 256],
    frequencies: &mut [f64; 256],
    duties: &mut [f64; 256],
    ring: Ring,
    n: usize,
) -> Ring
    ensures { queue_of onsets.new frequencies.new duties.new result
        ≡ without (queue_of onsets.old frequencies.old duties.old ring) n }
{
    for i in 0..n {
        let at = place(ring, i);
        onsets[at] = 0.0;
        frequencies[at] = 0.0;
        duties[at] = 0.0;
    }
    skip(ring, n)
}

// The oldest event, and the ring without it: its place is given back.
pub fn take_from(
    onsets: &mut [f64; 256],
    frequencies: &mut [f64; 256],
    duties: &mut [f64; 256],
    ring: Ring,
) -> Result<(Event, Ring), Refusal>
    ensures { take_outcome (number_of result) (value_or result (nothing, ring)).0
        (queue_of onsets.new frequencies.new duties.new (value_or result (nothing, ring)).1)
        ≡ take_of (queue_of onsets.old frequencies.old duties.old ring) }
{
    if ring.count == 0 {
        return Err(Refusal::NoEvent);
    }
    let event = event_in(onsets, frequencies, duties, ring, 0);
    Ok((event, drop_from(onsets, frequencies, duties, ring, 1)))
}

// How many events wait, or how many there is room for.
fn fit_in(ring: Ring, room: usize) -> usize
    ensures { result ≡ fit_of ring.count room }
{
    ring.count.min(room)
}

// As many waiting events as there are records, oldest first, and their number; later records stay. No place is given
// back yet.
fn lay_into<'a, 'b>(
    onsets: &'a [f64; 256],
    frequencies: &'a [f64; 256],
    duties: &'a [f64; 256],
    ring: Ring,
    records: &'b mut [Event],
) -> usize
    ensures { lay_outcome result records.new
        ≡ lay_of (queue_of onsets.now frequencies.now duties.now ring)
        records.old }
{
    let count = fit_in(ring, records.len());
    for i in 0..count {
        records[i] = event_in(onsets, frequencies, duties, ring, i);
    }
    count
}

// What needs no records is done apart from `take_into`.
fn drop_batch(
    onsets: &mut [f64; 256],
    frequencies: &mut [f64; 256],
    duties: &mut [f64; 256],
    ring: Ring,
    count: usize,
) -> Batch
    ensures { batched result onsets.new frequencies.new duties.new
        ≡ drop_of (queue_of onsets.old frequencies.old duties.old ring) count }
{
    let rest = drop_from(onsets, frequencies, duties, ring, count);
    Batch { count, ring: rest }
}

// The bulk taker: as many events as there are records, oldest first. Their number is the answer, and none waiting is
// no refusal.
pub fn take_into(
    onsets: &mut [f64; 256],
    frequencies: &mut [f64; 256],
    duties: &mut [f64; 256],
    ring: Ring,
    records: &mut [Event],
) -> Batch
    ensures { bulk_outcome (batched result onsets.new frequencies.new duties.new)
        records.new
        ≡ bulk_of (queue_of onsets.old frequencies.old duties.old ring)
        records.old }
{
    let count = lay_into(onsets, frequencies, duties, ring, records);
    drop_batch(onsets, frequencies, duties, ring, count)
}

// No event waits, whatever the arrays held.
pub fn empty_in(
    onsets: &mut [f64; 256],
    frequencies: &mut [f64; 256],
    duties: &mut [f64; 256],
) -> Ring
    ensures { queue_of onsets.new frequencies.new duties.new result ≡ empty_queue }
{
    *onsets = [0.0; 256];
    *frequencies = [0.0; 256];
    *duties = [0.0; 256];
    Ring { head: 0, count: 0 }
}

// ---- the same by value: the arrays are copied once, and lent

pub fn empty() -> Queue
    ensures { result ≡ empty_queue }
{
    let onsets = [0.0; 256];
    let frequencies = [0.0; 256];
    let duties = [0.0; 256];
    let ring = Ring { head: 0, count: 0 };
    Queue {
        onsets,
        frequencies,
        duties,
        ring,
    }
}

pub fn put(queue: Queue, event: Event) -> Result<Queue, Refusal>
    ensures { put_outcome (number_of result) (value_or result queue) ≡ put_of queue event }
{
    let mut onsets = queue.onsets;
    let mut frequencies = queue.frequencies;
    let mut duties = queue.duties;
    let ring = put_in(
        &mut onsets,
        &mut frequencies,
        &mut duties,
        queue.ring,
        event,
    )?;
    Ok(Queue {
        onsets,
        frequencies,
        duties,
        ring,
    })
}

pub fn take(queue: Queue) -> Result<(Event, Queue), Refusal>
    ensures { take_outcome (number_of result) (value_or result (nothing, queue)).0
        (value_or result (nothing, queue)).1 ≡ take_of queue }
{
    let mut onsets = queue.onsets;
    let mut frequencies = queue.frequencies;
    let mut duties = queue.duties;
    let (event, ring) = take_from(&mut onsets, &mut frequencies, &mut duties, queue.ring)?;
    let rest = Queue {
        onsets,
        frequencies,
        duties,
        ring,
    };
    Ok((event, rest))
}

fn drop_oldest(queue: Queue, count: usize) -> Bulk
    ensures { result ≡ drop_of queue count }
{
    let mut onsets = queue.onsets;
    let mut frequencies = queue.frequencies;
    let mut duties = queue.duties;
    let ring = drop_from(
        &mut onsets,
        &mut frequencies,
        &mut duties,
        queue.ring,
        count,
    );
    let queue = Queue {
        onsets,
        frequencies,
        duties,
        ring,
    };
    Bulk { count, queue }
}

// The bulk taker, as `take_into`.
pub fn take_events(queue: Queue, records: &mut [Event]) -> Bulk
    ensures { bulk_outcome result records.new ≡ bulk_of queue records.old }
{
    let onsets = queue.onsets;
    let frequencies = queue.frequencies;
    let duties = queue.duties;
    let count = lay_into(&onsets, &frequencies, &duties, queue.ring, records);
    drop_oldest(queue, count)
}
