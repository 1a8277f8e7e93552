// What can be seen beside the bus: the counters and the screen.
ghost use Rattle.std.specs.Prelude.{◌≡◌, List, ℕ, Float};
ghost use Rattle.state.specs.Bank.{parts_in};
ghost use Rattle.system.specs.Bank.{machine_of};
ghost use Rattle.system.specs.Steps as steps;
ghost use Rattle.system.specs.Steps.{words, step};
ghost use Rattle.live.specs.Live.{only, screen_seen, screen_of};

use script::{BAD_MEMORY, DONE, bad_memory};
use state::Cells;

// Frames drawn, writes of the flash, and 1 where the power is off.
pub fn tg18_lent_counters(
    cells: &Cells,
    frames: &mut [u64; 1],
    writes: &mut [u64; 1],
    off: &mut [u32; 1],
)
    ensures { (slots addresses values rtc page : List ℕ) (onsets frequencies duties starts : List Float)
        (codes : List ℕ) (f : List Float) (ram sram gpio fb : List ℕ) →
        words (machine_of slots addresses values rtc page onsets frequencies duties starts codes (parts_in
        cells.now f) ram sram gpio fb) 0 (only frames.new) (only writes.new) (only
        off.new)
        ≡ step (machine_of slots addresses values rtc page onsets frequencies duties starts codes (parts_in
        cells.now f) ram sram gpio fb) steps.counters }
{
    *frames = [state::panels::frames_of(cells)];
    *writes = [state::chips::writes_of(cells)];
    *off = [u32::from(state::rests::off_of(cells))];
}

// The colours of every pixel, row by row, three bytes each.
pub fn tg18_lent_screen(ram: &[u8], sram: &[u8], gpio: &[u8], fb: &[u8], rgb: &mut [u8]) -> u32
    ensures { (slots addresses values rtc page : List ℕ) (onsets frequencies duties starts : List Float)
        (codes l : List ℕ) (f : List Float) →
        screen_seen result rgb.new
        ≡ screen_of (machine_of slots addresses values rtc page onsets frequencies duties starts codes (parts_in l f)
        ram.now sram.now gpio.now fb.now) rgb.old }
{
    if bad_memory(ram, sram, gpio, fb) {
        return BAD_MEMORY;
    }
    map::status(panel::rgb(fb, rgb))
}
