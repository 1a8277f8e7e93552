// The time of day of the SoC's clock.
ghost use Rattle.std.specs.Prelude.{◌≡◌};
ghost use Rattle.clock.specs.Day.{fresh_irq, tod_of, field_of, set_of};

use crate::RtcIrq;
use whole::forms::choose;

// The clock as it is after a wipe.
pub fn fresh() -> RtcIrq
    ensures { result ≡ fresh_irq }
{
    RtcIrq {
        fired: 0,
        base: 0,
        set: 0.0,
    }
}

// Seconds of the day. What is below zero, as an i64, is counted back from the day's end.
pub fn tod(irq: RtcIrq, game: f64) -> u64
    ensures { result ≡ tod_of irq game }
{
    let t = whole::whole_signed(irq.base as f64 + game - irq.set);
    if t < 0x8000_0000_0000_0000 {
        return t % 86400;
    }
    86399 - (u64::MAX - t) % 86400
}

// Field 0 is seconds, 1 minutes, any other hours.
#[tactic(auto, unfolding(crate::specs::Day::field_of))]
pub fn tod_read(irq: RtcIrq, game: f64, field: u32) -> u64
    ensures { result ≡ field_of (tod_of irq game) field }
{
    let t = tod(irq, game);
    if field == 0 {
        return t % 60;
    }
    if field == 1 {
        return t / 60 % 60;
    }
    t / 3600
}

// The other two fields stay as they are now.
pub fn tod_write(irq: RtcIrq, game: f64, field: u32, value: u32) -> RtcIrq
    ensures { result ≡ set_of irq game field value }
{
    let t = tod(irq, game);
    let v = value as u64;
    let seconds = choose(field == 0, v, t % 60) % 60;
    let minutes = choose(field == 1, v, t / 60 % 60) % 60;
    let hours = choose(field > 1, v, t / 3600) % 24;
    RtcIrq {
        fired: irq.fired,
        base: (hours * 3600 + minutes * 60 + seconds) as u32,
        set: game,
    }
}
