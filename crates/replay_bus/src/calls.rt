// Calls that change the state. Times and turbos come as bits.
use crate::desk::Desk;
use crate::memories;
use lines::{Answer, answered, refused};
use system::{access, buttons, moment};
use whole::forms::bits_of;
use whole::limits::Bits;

impl Desk {
    pub(crate) fn read(&mut self, addr: u32, size: u32) -> Answer {
        let m = &self.memories;
        match access::read(self.system, &m.ram, &m.sram, &m.gpio, addr, size) {
            Ok((word, later)) => {
                self.system = later;
                answered(u64::from(word), 0, 0)
            }
            Err(refusal) => refused(u8::from(refusal)),
        }
    }

    pub(crate) fn write(&mut self, addr: u32, size: u32, value: u32) -> Answer {
        let later = memories::write(&mut self.memories, self.system, addr, size, value);
        self.changed(later)
    }

    pub(crate) fn advance(&mut self, bits: u64) -> Answer {
        let later = memories::advance(&mut self.memories, self.system, Bits(bits));
        self.changed(later)
    }

    pub(crate) fn turbo(&mut self, bits: u64) -> Answer {
        self.changed(moment::set_turbo(self.system, Bits(bits)))
    }

    pub(crate) fn hold(&mut self, key: u32, bits: u64) -> Answer {
        self.changed(buttons::hold_until(self.system, key, Bits(bits)))
    }

    pub(crate) fn press(&mut self, key: u32, bits: u64) -> Answer {
        self.changed(buttons::press(self.system, key, Bits(bits)))
    }

    pub(crate) fn take(&mut self) -> Answer {
        match moment::take_event(self.system) {
            Ok((event, later)) => {
                self.system = later;
                answered(
                    bits_of(event.time),
                    bits_of(event.frequency),
                    bits_of(event.duty),
                )
            }
            Err(refusal) => refused(u8::from(refusal)),
        }
    }

    pub(crate) fn wipe(&mut self) -> Answer {
        self.system = memories::wipe(&mut self.memories);
        answered(0, 0, 0)
    }
}
