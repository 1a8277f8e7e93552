// Looks at what no register shows.
use crate::desk::Desk;
use crate::place::PANEL_STATUS;
use lines::{Answer, answered};
use timer::Timer;
use whole::forms::bits_of;

fn timer_look(t: Timer) -> Answer {
    answered(bits_of(t.start), t.seen, u64::from(t.pending))
}

impl Desk {
    fn sound_look(&self) -> Answer {
        answered(
            bits_of(self.tone.frequency),
            bits_of(self.tone.duty),
            self.queue.ring.count as u64,
        )
    }

    fn alarm_look(&self) -> Answer {
        match clock::chip::alarm_ticks(&self.rtc.regs) {
            Some(ticks) => answered(1, ticks, 0),
            None => answered(0, 0, 0),
        }
    }

    fn others_look(&self, at: u64) -> Answer {
        let time = self.time;
        let latch = self.rtc.latch;
        let irq = self.irq;
        match at {
            6 => answered(bits_of(time.now), bits_of(time.game), bits_of(time.turbo)),
            7 => self.sound_look(),
            8 => answered(latch.base, bits_of(latch.since), u64::from(latch.out)),
            9 => answered(u64::from(irq.base), bits_of(irq.set), irq.fired),
            10 => answered(
                self.vsyncs,
                u64::from(self.words[PANEL_STATUS]),
                u64::from(self.converting),
            ),
            11 => self.alarm_look(),
            12 => answered(
                clock::day::tod(irq, time.game),
                clock::chip::ticks(latch, time.game),
                0,
            ),
            _ => answered(0, 0, 0),
        }
    }

    pub(crate) fn look(&self, at: u64) -> Answer {
        match self.timers.get(at as usize) {
            Some(&timer) => timer_look(timer),
            None => self.others_look(at),
        }
    }
}
