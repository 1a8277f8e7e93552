// Puts state as no run leaves it, to see that any state is worked as the Rust works it.
use crate::desk::Desk;
use timer::Timer;
use whole::forms::low;

// The number of a pattern, and `old` where the pattern is a NaN's.
fn number(bits: u64, old: f64) -> f64 {
    if bits % 0x8000_0000_0000_0000 > 0x7FF0_0000_0000_0000 {
        return old;
    }
    f64::from_bits(bits)
}

fn timer_put(t: Timer, part: u64, value: u64) -> Timer {
    let mut next = t;
    match part {
        0 => next.start = number(value, t.start),
        1 => next.seen = value,
        2 => next.pending = value % 2 == 1,
        _ => {}
    }
    next
}

impl Desk {
    // An address where nothing can be put leaves all as it is.
    fn others_put(&mut self, at: u64, value: u64) {
        match at {
            6 => self.time.now = number(value, self.time.now),
            7 => self.time.game = number(value, self.time.game),
            8 => self.time.turbo = number(value, self.time.turbo),
            9 => self.tone.frequency = number(value, self.tone.frequency),
            10 => self.tone.duty = number(value, self.tone.duty),
            11 => self.rtc.latch.base = value,
            12 => self.rtc.latch.since = number(value, self.rtc.latch.since),
            13 => self.irq.base = low(value),
            14 => self.irq.set = number(value, self.irq.set),
            15 => self.irq.fired = value,
            0x16 => self.vsyncs = value,
            _ => {}
        }
    }

    // The first digit of a timer's address says what of it is put.
    pub(crate) fn put(&mut self, at: u64, value: u64) {
        let n = (at % 16) as usize;
        if n < 6 {
            self.timers[n] = timer_put(self.timers[n], at / 16, value);
        } else {
            self.others_put(at, value);
        }
    }
}
