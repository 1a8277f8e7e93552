// Time: advance, next_event, turbo, interrupts, sound events.
ghost use Rattle.std.specs.Prelude.{◌≡◌};
ghost use Rattle.time.specs.Next.{next_answer};
ghost use Rattle.system.specs.Calls.{changed_by, taken_by};
ghost use Rattle.system.specs.Calls.{moved, advance_of, turbo_of, next_of, pending_of, wanted_of, take_of};

use crate::System;
use crate::parts::{Bank, with_parts, with_slots};
use map::Refusal;
use timer::Event;
use whole::limits::Given;

pub fn advance<T: Given>(s: System, sram: &[u8], gpio: &mut [u8], to: T) -> Result<System, Refusal>
    ensures { moved (changed_by s result) gpio.new ≡ advance_of s sram.now gpio.old (T.float to) }
{
    let mut slots = s.registers.slots;
    let presses = s.presses;
    let mut bank = Bank::of(s);
    time::advancing::advance(
        &mut slots,
        &mut bank.cells,
        &mut bank.floats,
        sram,
        gpio,
        &presses.starts,
        &presses.codes,
        to,
    )?;
    Ok(bank.put_back(with_slots(s, slots)))
}

pub fn next_event(s: System, sram: &[u8]) -> Result<f64, Refusal>
    ensures { next_answer result ≡ next_of s sram.now }
{
    let slots = s.registers.slots;
    let starts = s.presses.starts;
    let bank = Bank::of(s);
    time::next::next_event(&slots, &bank.cells, &bank.floats, sram, &starts)
}

pub fn set_turbo<T: Given>(s: System, to: T) -> Result<System, Refusal>
    ensures { changed_by s result ≡ turbo_of s (T.float to) }
{
    let mut bank = Bank::of(s);
    time::pace::set_turbo(&mut bank.floats, to)?;
    Ok(bank.put_back(s))
}

pub fn pending_irq(s: System) -> u32
    ensures { result ≡ pending_of s }
{
    let slots = s.registers.slots;
    let bank = Bank::of(s);
    time::irq::pending_irq(&slots, &bank.cells)
}

pub fn irq_wanted(s: System) -> bool
    ensures { result ≡ wanted_of s }
{
    let slots = s.registers.slots;
    let bank = Bank::of(s);
    time::irq::irq_wanted(&slots, &bank.cells)
}

// The oldest sound event.
pub fn take_event(s: System) -> Result<(Event, System), Refusal>
    ensures { taken_by s result ≡ take_of s }
{
    let mut queue = s.queue;
    let mut bank = Bank::of(s);
    let event = time::tones::take_event(
        &mut queue.onsets,
        &mut queue.frequencies,
        &mut queue.duties,
        &mut bank.cells,
    )?;
    let parts = bank.parts();
    queue.ring = parts.ring;
    let mut next = with_parts(s, parts);
    next.queue = queue;
    Ok((event, next))
}
