// Looks at what no answer shows.
ghost use Rattle.std.specs.Prelude.{◌≤◌};

use crate::desk::Desk;
use crate::pixels::checksum;
use lines::{Answer, answered};
use panel::Panel;
use panel::args::code;

// Four numbers of 16 bits in one word, the first one highest.
fn four(numbers: [u16; 4]) -> u64 {
    numbers
        .iter()
        .fold(0, |word: u64, &n| word << 16 | u64::from(n))
}

fn window_look(panel: Panel) -> Answer {
    let w = panel.window;
    let p = panel.pen;
    answered(
        four([w.x0, w.x1, w.y0, w.y1]),
        four([0, 0, p.x, p.y]),
        p.frames,
    )
}

fn command_look(panel: Panel) -> Answer {
    let args = panel.args;
    let high = u16::from_be_bytes([args[0], args[1]]);
    let low = u16::from_be_bytes([args[2], args[3]]);
    answered(
        u64::from(code(panel.cmd)),
        u64::from(code(panel.pen.half)),
        four([0, u16::from(panel.count), high, low]),
    )
}

// Eight bytes, the first one highest; past the end 0.
fn word(bytes: &[u8], at: usize) -> u64
    requires { at ≤ 0xF_0000 }
{
    (at..at + 8).fold(
        0,
        |word: u64, i| word << 8 | u64::from(bytes.get(i).copied().unwrap_or(0)),
    )
}

// The k-th 24 bytes.
fn bytes_look(bytes: &[u8], k: u64) -> Answer {
    let at = (k % 2048 * 24) as usize;
    answered(word(bytes, at), word(bytes, at + 8), word(bytes, at + 16))
}

impl Desk {
    pub(crate) fn look(&self, at: u64) -> Answer {
        match at {
            0 => window_look(self.panel),
            1 => command_look(self.panel),
            2 => answered(checksum(&self.framebuffer), checksum(&self.screen), 0),
            0x1_0000..=0x1_0555 => bytes_look(&self.framebuffer, at - 0x1_0000),
            0x2_0000..=0x2_07FF => bytes_look(&self.screen, at - 0x2_0000),
            _ => answered(0, 0, 0),
        }
    }
}
