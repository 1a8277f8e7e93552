// Looks that change nothing.
use crate::desk::Desk;
use lines::{Answer, answered, digest, lent, refused};
use system::{buttons, look, moment};
use whole::forms::bits_of;

impl Desk {
    pub(crate) fn next_event(&self) -> Answer {
        match moment::next_event(self.system, &self.memories.sram) {
            Ok(time) => answered(bits_of(time), 0, 0),
            Err(refusal) => refused(u8::from(refusal)),
        }
    }

    pub(crate) fn pending_irq(&self) -> Answer {
        answered(u64::from(moment::pending_irq(self.system)), 0, 0)
    }

    pub(crate) fn irq_wanted(&self) -> Answer {
        answered(u64::from(moment::irq_wanted(self.system)), 0, 0)
    }

    pub(crate) fn counters(&self) -> Answer {
        let seen = look::counters(self.system);
        answered(seen.frames, seen.writes, u64::from(seen.off))
    }

    // The red, green and blue of a pixel.
    pub(crate) fn colours(&self, at: u32) -> Answer {
        let c = panel::colour::at(&self.memories.fb, at);
        let word = u64::from(c.r) << 16 | u64::from(c.g) << 8 | u64::from(c.b);
        answered(word, 0, 0)
    }

    // Key A in the lowest bit.
    pub(crate) fn keys_held(&self) -> Answer {
        let down = buttons::keys_held(self.system);
        let held = u64::from(down.a) | u64::from(down.b) << 1 | u64::from(down.c) << 2;
        answered(held, 0, 0)
    }

    pub(crate) fn peek8(&self, at: u32) -> Answer {
        let m = &self.memories;
        let byte = look::peek8(self.system, &m.ram, &m.sram, &m.gpio, at);
        answered(u64::from(byte), 0, 0)
    }

    pub(crate) fn peek32(&self, at: u32) -> Answer {
        let m = &self.memories;
        let word = look::peek32(self.system, &m.ram, &m.sram, &m.gpio, at);
        answered(u64::from(word), 0, 0)
    }

    // So many bytes from an address on, whether all of them could be read, and their digest.
    pub(crate) fn block(&self, at: u32, count: u64) -> Answer {
        let mut bytes = [0u8; 65536];
        let n = lent(count % 65537, &bytes);
        let buf = &mut bytes[..n];
        let m = &self.memories;
        let whole = look::read_block(self.system, &m.ram, &m.sram, &m.gpio, at, buf);
        answered(u64::from(whole), digest(buf), 0)
    }
}
