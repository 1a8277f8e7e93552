// Reads of register words.
ghost use Rattle.std.specs.Prelude.{◌<◌};

use crate::desk::Desk;
use crate::place::{CLOCK, HOURS, MINUTES, RTC_OUT, RTC_READY, SECONDS, place};

impl Desk {
    // A timer has eight words: control at 0, reload at 2, compare at 3, counter at 4.
    fn timer_word(&self, i: usize) -> u32
        requires { i < 48 }
    {
        let n = i / 8;
        let stored = self.words[i];
        match i % 8 {
            0 => timer::read_ctrl(self.timers[n], stored),
            4 => timer::counter(
                self.timers[n],
                self.time.now,
                self.words[CLOCK],
                self.words[8 * n],
                self.words[8 * n + 2],
                stored,
            ),
            _ => stored,
        }
    }

    // The time of day is not stored, and the RTC chip's bus is always ready.
    fn word(&self, i: usize) -> u64
        requires { i < 62 }
    {
        let game = self.time.game;
        match i {
            0..48 => u64::from(self.timer_word(i)),
            SECONDS => clock::day::tod_read(self.irq, game, 0),
            MINUTES => clock::day::tod_read(self.irq, game, 1),
            HOURS => clock::day::tod_read(self.irq, game, 2),
            RTC_READY => 1,
            RTC_OUT => u64::from(self.rtc.latch.out),
            _ => u64::from(self.words[i]),
        }
    }

    // An address that no device here has reads 0.
    pub(crate) fn read(&self, at: u32) -> u64 {
        match place(at) {
            Some(i) => self.word(i),
            None => 0,
        }
    }
}
