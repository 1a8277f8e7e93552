// What the steps work on: the state by value, and the four memories that its calls are lent.
use crate::kind::Kind;
use crate::memories;
use lines::{Answer, Machine, Memories, Step, answered, refused};
use map::Refusal;
use system::{System, buttons};
use whole::forms::low;

#[derive(Drop)]
pub struct Desk {
    pub system: System,
    pub memories: Memories,
}

pub(crate) fn fresh() -> Desk {
    Desk {
        system: system::wipe::fresh(),
        memories: Memories::default(),
    }
}

impl Desk {
    // What a call leaves; where it refuses, the state that was there.
    pub(crate) fn changed(&mut self, later: Result<System, Refusal>) -> Answer {
        match later {
            Ok(system) => {
                self.system = system;
                answered(0, 0, 0)
            }
            Err(refusal) => refused(u8::from(refusal)),
        }
    }

    fn answer(&mut self, kind: Kind, at: u32, value: u64) -> Answer {
        match kind {
            Kind::Read { size } => self.read(at, size),
            Kind::Write { size } => self.write(at, size, low(value)),
            Kind::Advance => self.advance(value),
            Kind::NextEvent => self.next_event(),
            Kind::PendingIrq => self.pending_irq(),
            Kind::Turbo => self.turbo(value),
            Kind::SetLive => self.changed(buttons::set_live(self.system, at, value != 0)),
            Kind::Hold => self.hold(at, value),
            Kind::Take => self.take(),
            Kind::Counters => self.counters(),
            Kind::Colours => self.colours(at),
            Kind::Wipe => self.wipe(),
            Kind::Press => self.press(at % 256, value),
            Kind::Peek8 => self.peek8(at),
            Kind::Peek32 => self.peek32(at),
            Kind::Poke => memories::poke(&mut self.memories, at, value),
            Kind::KeysHeld => self.keys_held(),
            Kind::IrqWanted => self.irq_wanted(),
            Kind::Block => self.block(at, value),
            Kind::Digest => memories::digest_of(&self.memories, at),
        }
    }
}

impl Machine for Desk {
    // An unknown kind ends the list.
    fn step(&mut self, asked: Step) -> Option<Answer> {
        let kind = Kind::try_from(asked.kind).ok()?;
        Some(self.answer(kind, low(asked.address), asked.value))
    }
}
