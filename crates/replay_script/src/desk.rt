// What the steps work on: the memories, the script, and the slice for its answers.
use crate::kind::Kind;
use crate::memories;
use crate::script::{Script, TooLong};
use lines::{Answer, Machine, Memories, Step, answered, digest, lent, refused};

#[derive(Default, Drop)]
pub struct Desk {
    memories: Memories,
    script: Script,
    out: [u8; 32768],
}

// The number that bytes are, the lowest first.
fn word(bytes: &[u8]) -> u64 {
    bytes
        .iter()
        .rev()
        .fold(0, |n: u64, &byte| n << 8 | u64::from(byte))
}

impl Desk {
    // The slice before a run, so that bytes that stay can be told from zeros. It is filled where it stands: a desk that
    // a function makes with it and returns would be on the stack twice.
    pub(crate) fn clear_answers(&mut self) {
        self.out.fill(0xA5);
    }

    // A new script, where there is room for it.
    fn lay(&mut self, length: u64) -> Answer {
        match self.script.lay(length) {
            Ok(()) => {
                self.clear_answers();
                answered(0, 0, 0)
            }
            Err(TooLong) => refused(1),
        }
    }

    // The script, with so many bytes lent for its answers. Not inlined: the state that a script has on the stack is not
    // every step's.
    #[inline(never)]
    fn run(&mut self, room: u64) -> Answer {
        let out = &mut self.out[..];
        let m = lent(room, out);
        let refusal = memories::run(&mut self.memories, self.script.bytes(), &mut out[..m]);
        let count = word(&self.out[..4]);
        answered(u64::from(refusal), count, digest(&self.out))
    }

    fn answer_at(&self, index: u32) -> Answer {
        let at = 4 + map::ANSWER_BYTES * index as usize;
        match self.out.get(at..at + map::ANSWER_BYTES) {
            Some(bytes) => Answer {
                refusal: bytes[0],
                a: word(&bytes[1..9]),
                b: word(&bytes[9..17]),
                c: word(&bytes[17..]),
            },
            None => refused(1),
        }
    }
}

impl Machine for Desk {
    // An unknown kind ends the list.
    fn step(&mut self, asked: Step) -> Option<Answer> {
        let kind = Kind::try_from(asked.kind).ok()?;
        let at = (asked.address % 0x1_0000_0000) as u32;
        Some(match kind {
            Kind::Lay => self.lay(asked.value),
            Kind::Put => {
                self.script.put(at as usize, asked.value);
                answered(0, 0, 0)
            }
            Kind::Fill => {
                memories::fill(&mut self.memories, at);
                answered(0, 0, 0)
            }
            Kind::Run => self.run(asked.value),
            Kind::Answer => self.answer_at(at),
            Kind::Show => memories::show(&self.memories, at),
        })
    }
}
