// The panel: `Lcd` of core/src/sys.rs. A window, a writing position in it, and the pixels of a lent framebuffer.
//
// What stands here refuses a framebuffer that has not 32,768 bytes. The functions of the modules take one of any
// length: what lies past its end is not stored and reads as 0.
#![tactic(auto)]

pub mod args;
pub mod colour;
pub mod draw;
pub mod glass;
pub mod lcd;

ghost use Rattle.std.specs.Prelude.{◌≡◌};
ghost use Rattle.panel.specs.Lcd.{fresh_panel};
ghost use Rattle.panel.specs.Entries.{outcome, data_of, pixel, pixel_of, picture, picture_of};

use map::Refusal;

// First and last column, first and last row. They may lie off the glass, and in any order.
#[derive(Clone, Copy)]
pub struct Window {
    pub x0: u16,
    pub x1: u16,
    pub y0: u16,
    pub y1: u16,
}

// Where the next pixel goes, its first byte once that has come, and the frames so far.
#[derive(Clone, Copy)]
pub struct Pen {
    pub x: u16,
    pub y: u16,
    pub half: Option<u8>,
    pub frames: u64,
}

// The arguments are the first four data bytes of a command; the count of them stops at four.
#[derive(Clone, Copy)]
pub struct Panel {
    pub cmd: Option<u8>,
    pub args: [u8; 4],
    pub count: u8,
    pub window: Window,
    pub pen: Pen,
}

#[derive(Drop)]
pub struct Colours {
    pub r: u8,
    pub g: u8,
    pub b: u8,
}

const LAST_X: u16 = map::LCD_W as u16 - 1;

const LAST_Y: u16 = map::LCD_H as u16 - 1;

// The panel as it is after a wipe: the whole glass is the window.
pub fn fresh() -> Panel
    ensures { result ≡ fresh_panel }
{
    Panel {
        cmd: None,
        args: [0, 0, 0, 0],
        count: 0,
        window: Window {
            x0: 0,
            x1: LAST_X,
            y0: 0,
            y1: LAST_Y,
        },
        pen: Pen {
            x: 0,
            y: 0,
            half: None,
            frames: 0,
        },
    }
}

// A data byte.
pub fn data(p: Panel, framebuffer: &mut [u8], b: u8) -> Result<Panel, Refusal>
    ensures { outcome p result framebuffer.new ≡ data_of p framebuffer.old b }
{
    if framebuffer.len() == map::FRAMEBUFFER_SIZE {
        return Ok(lcd::data(p, framebuffer, b));
    }
    Err(Refusal::BadMemory)
}

// The colours of pixel k modulo 16,384.
pub fn rgb_at(framebuffer: &[u8], k: u32) -> Result<Colours, Refusal>
    ensures { pixel result ≡ pixel_of framebuffer.now k }
{
    if framebuffer.len() == map::FRAMEBUFFER_SIZE {
        return Ok(colour::at(framebuffer, k));
    }
    Err(Refusal::BadMemory)
}

// The whole screen as 8-bit triples, into 49,152 bytes.
pub fn rgb(framebuffer: &[u8], out: &mut [u8]) -> Result<(), Refusal>
    ensures { picture result out.new ≡ picture_of framebuffer.now out.old }
{
    if framebuffer.len() == map::FRAMEBUFFER_SIZE {
        if out.len() == map::SCREEN_BYTES {
            colour::screen(framebuffer, out);
            return Ok(());
        }
    }
    Err(Refusal::BadMemory)
}
