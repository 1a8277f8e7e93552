// What the steps work on: the devices, and the register words by their places.
use crate::kind::Kind;
use crate::place::{ADC_CONTROL, ADC_RESULT, CLOCK, WORDS};
use clock::{Adc, Rtc, RtcIrq, Times};
use lines::{Answer, Machine, Step, UnknownKind, answered, refused};
use timer::{Queue, Timer, Tone};
use whole::forms::{bits_of, low};

#[derive(Drop)]
pub struct Desk {
    pub time: Times,
    pub timers: [Timer; 6],
    pub tone: Tone,
    pub queue: Queue,
    pub rtc: Rtc,
    pub irq: RtcIrq,
    // Vertical syncs seen.
    pub vsyncs: u64,
    pub converting: bool,
    pub words: [u32; WORDS],
}

pub(crate) fn fresh() -> Desk {
    Desk {
        time: clock::pace::fresh(),
        timers: [timer::fresh(); 6],
        tone: timer::sound::silent(),
        queue: timer::events::empty(),
        rtc: clock::chip::fresh(),
        irq: clock::day::fresh(),
        vsyncs: 0,
        converting: false,
        words: [0; WORDS],
    }
}

// The answer of a step that has nothing to say.
pub(crate) fn done() -> Answer {
    answered(0, 0, 0)
}

impl Desk {
    pub(crate) fn adc(&self) -> Adc {
        Adc {
            converting: self.converting,
            control: self.words[ADC_CONTROL],
            result: self.words[ADC_RESULT],
        }
    }

    fn take(&mut self) -> Answer {
        match timer::events::take(self.queue) {
            Ok((event, rest)) => {
                self.queue = rest;
                answered(
                    bits_of(event.time),
                    bits_of(event.frequency),
                    bits_of(event.duty),
                )
            }
            Err(refusal) => refused(u8::from(refusal)),
        }
    }

    fn answer(&mut self, kind: Kind, address: u64, value: u64) -> Answer {
        match kind {
            Kind::Read => answered(self.read(low(address)), 0, 0),
            Kind::Write => self.write(low(address), low(value)),
            Kind::Advance => self.advance(value),
            Kind::Turbo => self.turbo(value),
            Kind::Take => self.take(),
            Kind::Clock => {
                self.words[CLOCK] = low(value);
                done()
            }
            Kind::Look => self.look(address),
            Kind::Put => {
                self.put(address, value);
                done()
            }
        }
    }
}

impl Machine for Desk {
    // An unknown kind does nothing, and none ends the list.
    fn step(&mut self, asked: Step) -> Option<Answer> {
        Some(match Kind::try_from(asked.kind) {
            Ok(kind) => self.answer(kind, asked.address, asked.value),
            Err(UnknownKind(_)) => done(),
        })
    }
}
