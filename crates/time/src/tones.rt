// The sound events that wait.
ghost use Rattle.std.specs.Prelude.{◌≡◌, List, Float};
ghost use Rattle.map.specs.Refusals.{number_of, value_or};
ghost use Rattle.timer.specs.Events.{nothing, queue_of, take_of};
ghost use Rattle.state.specs.Bank.{ring_in, parts_in};
ghost use Rattle.state.specs.Packed.{Answered};
ghost use Rattle.time.specs.Bank.{asked, took, took_of};

use map::Refusal;
use state::Cells;
use timer::Event;

// The sound event that waited longest is taken.
pub fn take_event(
    onsets: &mut [f64; 256],
    frequencies: &mut [f64; 256],
    duties: &mut [f64; 256],
    cells: &mut Cells,
) -> Result<Event, Refusal>
    ensures { (f : List Float) → (took onsets.new frequencies.new duties.new
        (asked (parts_in cells.new f) (number_of result)) (value_or result nothing)
        ≡ took_of (parts_in cells.old f) (take_of (queue_of onsets.old frequencies.old
        duties.old (ring_in cells.old))))
        × Answered (number_of result) cells.old f cells.new f }
{
    let ring = state::rests::ring_of(cells);
    let (event, rest) = timer::events::take_from(onsets, frequencies, duties, ring)?;
    state::rests::put_ring(cells, rest);
    Ok(event)
}
