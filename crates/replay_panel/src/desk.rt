// What the steps work on: the panel, its framebuffer, and a slice for the screen's colours.
use crate::kind::Kind;
use crate::pixels::{checksum, draw};
use crate::put::put;
use lines::{Answer, Machine, Step, UnknownKind, answered, lent, refused};
use map::Refusal;
use panel::Panel;

#[derive(Drop)]
pub struct Desk {
    pub panel: Panel,
    pub framebuffer: [u8; 32768],
    pub screen: [u8; 49152],
}

pub(crate) fn fresh() -> Desk {
    Desk {
        panel: panel::fresh(),
        framebuffer: [0; 32768],
        screen: [0; 49152],
    }
}

// What a call of the panel answers: a word, or the number of its refusal.
fn word_answer(word: Result<u64, Refusal>) -> Answer {
    match word {
        Ok(word) => answered(word, 0, 0),
        Err(refusal) => refused(u8::from(refusal)),
    }
}

impl Desk {
    // A data byte, with only so many bytes of the framebuffer lent.
    fn send(&mut self, count: u64, byte: u8) -> Answer {
        let framebuffer = &mut self.framebuffer[..];
        let n = lent(count, framebuffer);
        let sent = panel::data(self.panel, &mut framebuffer[..n], byte);
        self.panel = sent.unwrap_or(self.panel);
        word_answer(sent.map(|_| 0))
    }

    // The last bytes of the value in reading order, eight of them at most.
    fn send_all(&mut self, count: u64, value: u64) -> Answer {
        let bytes = value.to_be_bytes();
        for &byte in &bytes[8 - count.min(8) as usize..] {
            let _ = self.send(32768, byte);
        }
        answered(0, 0, 0)
    }

    fn dma(&mut self, first: u64) -> Answer {
        draw(&mut self.framebuffer, first);
        self.panel = panel::lcd::count_frame(self.panel);
        answered(0, 0, 0)
    }

    // The red, green and blue of a pixel.
    fn colours(&self, at: u64) -> Answer {
        let shown = panel::rgb_at(&self.framebuffer, (at % 0x1_0000_0000) as u32);
        word_answer(shown.map(|c| u64::from(c.r) << 16 | u64::from(c.g) << 8 | u64::from(c.b)))
    }

    // The colours of the whole framebuffer, with only so many bytes of it and of the screen lent.
    fn show(&mut self, count: u64, room: u64) -> Answer {
        let n = lent(count, &self.framebuffer);
        let screen = &mut self.screen[..];
        let m = lent(room, screen);
        let drawn = panel::rgb(&self.framebuffer[..n], &mut screen[..m]);
        let sum = checksum(&self.screen);
        word_answer(drawn.map(|()| sum))
    }

    fn answer(&mut self, kind: Kind, address: u64, value: u64) -> Answer {
        match kind {
            Kind::Command => {
                self.panel = panel::lcd::command(self.panel, (value % 256) as u8);
                answered(0, 0, 0)
            }
            Kind::SendAll => self.send_all(address, value),
            Kind::Dma => self.dma(value),
            Kind::Colours => self.colours(address),
            Kind::ShowAll => self.show(32768, 49152),
            Kind::Send => self.send(address, (value % 256) as u8),
            Kind::Show => self.show(address, value),
            Kind::Look => self.look(address),
            Kind::Put => {
                self.panel = put(self.panel, address, value);
                answered(0, 0, 0)
            }
        }
    }
}

impl Machine for Desk {
    // An unknown kind changes nothing, and none ends the list.
    fn step(&mut self, asked: Step) -> Option<Answer> {
        Some(match Kind::try_from(asked.kind) {
            Ok(kind) => self.answer(kind, asked.address, asked.value),
            Err(UnknownKind(_)) => answered(0, 0, 0),
        })
    }
}
