// Periodic sources: each signals once where time has passed a whole period of it, however many it passed.
ghost use Rattle.std.specs.Prelude.{◌≡◌};
ghost use Rattle.whole.specs.Words.{has};
ghost use Rattle.clock.specs.Sources.{signal_of, vsync_of, ticked_of};

use crate::{RtcIrq, Signal, Ticked};

fn signal(n: u64, seen: u64, status: u32, bit: u32) -> Signal
    ensures { result ≡ signal_of n seen status bit }
{
    if n > seen {
        return Signal {
            seen: n,
            status: status | bit,
        };
    }
    Signal { seen, status }
}

// The panel's vertical sync, 60 a second of time.
pub fn vsync(last: u64, now: f64, status: u32) -> Signal
    ensures { result ≡ vsync_of last now status }
{
    signal(whole::whole(now * 60.0), last, status, 0x2000)
}

// The 1 Hz tick of game time.
pub fn rtc_irq_advance(irq: RtcIrq, game: f64, status: u32) -> Ticked
    ensures { result ≡ ticked_of irq game status }
{
    let s = signal(
        whole::whole(game / 1.0),
        irq.fired,
        status,
        map::RTC_TICK_BIT,
    );
    Ticked {
        irq: RtcIrq {
            fired: s.seen,
            ..irq
        },
        status: s.status,
    }
}

pub fn rtc_irq_line(status: u32, enable: u32) -> bool
    ensures { result ≡ has status enable }
{
    status & enable != 0
}
