// Writes of register words.
ghost use Rattle.std.specs.Prelude.{◌<◌};

use crate::desk::{Desk, done};
use crate::place::{
    ADC_CONTROL, CLOCK, HOURS, MINUTES, RTC_ADDRESS, RTC_COMMAND, RTC_DATA, SECONDS, TICK_STATUS,
    place,
};
use lines::{Answer, refused};
use map::Refusal;
use timer::{Event, Tone};

// The places of timer 4's words that the buzzer follows.
const SOUND_CONTROL: usize = 32;

const SOUND_RELOAD: usize = 34;

const SOUND_COMPARE: usize = 35;

impl Desk {
    // What the buzzer makes of timer 4's words once the value is stored at place i.
    fn sounded(&self, i: usize, value: u32) -> Result<Option<Tone>, Refusal> {
        let mut control = self.words[SOUND_CONTROL];
        let mut reload = self.words[SOUND_RELOAD];
        let mut compare = self.words[SOUND_COMPARE];
        match i {
            SOUND_CONTROL => control = value & 0xFFFF_7FFF,
            SOUND_RELOAD => reload = value,
            _ => compare = value,
        }
        timer::sound::sound_update(
            self.tone,
            timer::events::full(self.queue.ring),
            self.words[CLOCK],
            control,
            reload,
            compare,
        )
    }

    // The new tone is an event of this moment. There is room for it, or there would be no change.
    fn change_tone(&mut self, tone: Tone) {
        let event = Event {
            time: self.time.now,
            frequency: tone.frequency,
            duty: tone.duty,
        };
        self.tone = tone;
        self.queue = timer::events::put(self.queue, event).unwrap_or(self.queue);
    }

    // A word of a timer is stored, and a control word acts.
    fn timer_write(&mut self, i: usize, value: u32)
        requires { i < 48 }
    {
        if i % 8 == 0 {
            let t = self.timers[i / 8];
            let written = timer::write_ctrl(t, self.time.now, value, self.words[i]);
            self.words[i] = written.control;
            self.timers[i / 8] = written.timer;
        } else {
            self.words[i] = value;
        }
    }

    // A word that the buzzer follows. A refusal is known before anything is stored.
    fn sound_write(&mut self, i: usize, value: u32) -> Answer
        requires { i < 48 }
    {
        match self.sounded(i, value) {
            Ok(None) => {}
            Ok(Some(tone)) => self.change_tone(tone),
            Err(refusal) => return refused(u8::from(refusal)),
        }
        self.timer_write(i, value);
        done()
    }

    fn day_set(&mut self, field: u32, value: u32) {
        self.irq = clock::day::tod_write(self.irq, self.time.game, field, value);
    }

    fn command(&mut self, value: u32) {
        let (address, word) = (self.words[RTC_ADDRESS], self.words[RTC_DATA]);
        self.rtc = clock::chip::command(self.rtc, self.time.game, address, word, value);
        self.words[RTC_COMMAND] = value;
    }

    fn adc_write(&mut self, value: u32) {
        let written = clock::convert::adc_write_ctrl(self.adc(), value);
        self.words[ADC_CONTROL] = written.control;
        self.converting = written.converting;
    }

    // Every word but the timers'. Ones that are written clear the tick's status.
    fn other_write(&mut self, i: usize, value: u32)
        requires { i < 62 }
    {
        match i {
            SECONDS => self.day_set(0, value),
            MINUTES => self.day_set(1, value),
            HOURS => self.day_set(2, value),
            TICK_STATUS => self.words[TICK_STATUS] &= !value,
            RTC_COMMAND => self.command(value),
            ADC_CONTROL => self.adc_write(value),
            _ => self.words[i] = value,
        }
    }

    // An address that no device here has stores nothing.
    pub(crate) fn write(&mut self, at: u32, value: u32) -> Answer {
        match place(at) {
            None => {}
            Some(i @ (SOUND_CONTROL | SOUND_RELOAD | SOUND_COMPARE)) => {
                return self.sound_write(i, value);
            }
            Some(i) if i < 48 => self.timer_write(i, value),
            Some(i) => self.other_write(i, value),
        }
        done()
    }
}
