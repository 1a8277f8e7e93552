// Time goes on, and the devices follow.
use crate::desk::{Desk, done};
use crate::place::{ADC_CONTROL, ADC_RESULT, CLOCK, PANEL_STATUS, TICK_STATUS, WORDS};
use clock::Times;
use lines::{Answer, refused};
use timer::Timer;
use whole::limits::Bits;

// A timer's control word is the first of its eight, and its reload the third.
fn timers_to(timers: &mut [Timer; 6], words: &[u32; WORDS], now: f64) {
    for (n, timer) in timers.iter_mut().enumerate() {
        *timer = timer::advance(*timer, now, words[CLOCK], words[8 * n], words[8 * n + 2]);
    }
}

impl Desk {
    // Timers, vertical sync, ADC, 1 Hz tick. None of them reads what another one writes.
    fn reach(&mut self, time: Times) {
        timers_to(&mut self.timers, &self.words, time.now);
        let sync = clock::sources::vsync(self.vsyncs, time.now, self.words[PANEL_STATUS]);
        let adc = clock::convert::adc_advance(self.adc());
        let tick = clock::sources::rtc_irq_advance(self.irq, time.game, self.words[TICK_STATUS]);
        self.time = time;
        self.vsyncs = sync.seen;
        self.words[PANEL_STATUS] = sync.status;
        self.converting = adc.converting;
        self.words[ADC_CONTROL] = adc.control;
        self.words[ADC_RESULT] = adc.result;
        self.irq = tick.irq;
        self.words[TICK_STATUS] = tick.status;
    }

    pub(crate) fn advance(&mut self, bits: u64) -> Answer {
        match clock::pace::advance(self.time, Bits(bits)) {
            Ok(time) => {
                self.reach(time);
                done()
            }
            Err(refusal) => refused(u8::from(refusal)),
        }
    }

    pub(crate) fn turbo(&mut self, bits: u64) -> Answer {
        match clock::pace::set_turbo(self.time, Bits(bits)) {
            Ok(time) => {
                self.time = time;
                done()
            }
            Err(refusal) => refused(u8::from(refusal)),
        }
    }
}
