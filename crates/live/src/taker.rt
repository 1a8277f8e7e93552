// Sound events in bulk, of the bank and the queue's arrays that a host lends.
ghost use Rattle.std.specs.Prelude.{◌≡◌, List, ℕ, Float};
ghost use Rattle.state.specs.Bank.{parts_in};
ghost use Rattle.state.specs.Packed.{StaysPacked};
ghost use Rattle.system.specs.Bank.{machine_of};
ghost use Rattle.live.specs.Live.{took_many, take_many};
ghost use Rattle.live.specs.Inner.{Kept};

use state::Cells;
use timer::{Batch, Event};

// What needs no records is done apart. Where none was taken nothing is put, so that not even a ring that no run leaves
// changes.
fn keep(cells: &mut Cells, batch: Batch) -> usize
    ensures { Kept cells.old cells.new batch result }
{
    let count = batch.count;
    if count == 0 {
        return 0;
    }
    let ring = batch.ring;
    state::rests::put_ring(cells, ring);
    count
}

// The bulk taker: as many events as there are records, oldest first. Their number is the answer.
pub fn tg18_lent_take_events(
    onsets: &mut [f64; 256],
    frequencies: &mut [f64; 256],
    duties: &mut [f64; 256],
    cells: &mut Cells,
    records: &mut [Event],
) -> usize
    ensures { (slots addresses values rtc page : List ℕ) (starts : List Float) (codes : List ℕ)
        (f : List Float) (ram sram gpio fb : List ℕ) →
        (took_many result (machine_of slots addresses values rtc page onsets.new frequencies.new
        duties.new starts codes (parts_in cells.new f) ram sram gpio fb) records.new
        ≡ take_many (machine_of slots addresses values rtc page onsets.old frequencies.old
        duties.old starts codes (parts_in cells.old f) ram sram gpio fb) records.old)
        × StaysPacked cells.old f cells.new f }
{
    let ring = state::rests::ring_of(cells);
    let batch = timer::events::take_into(onsets, frequencies, duties, ring, records);
    keep(cells, batch)
}
