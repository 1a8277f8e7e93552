// Keys: live ones, taps, scripted presses, and which are down.
ghost use Rattle.std.specs.Prelude.{◌≡◌, not, List, ℕ, ◌+◌, ◌*◌, eqb, Float};
ghost use Rattle.whole.specs.Forms.{bit};
ghost use Rattle.state.specs.Bank.{parts_in};
ghost use Rattle.state.specs.Packed.{Answered};
ghost use Rattle.system.specs.Bank.{machine_of};
ghost use Rattle.system.specs.Steps as steps;
ghost use Rattle.system.specs.Steps.{words, plainly, step};

use keys::Held;
use state::{Cells, Floats};

// A key goes down, or up where `down` is 0.
pub fn tg18_lent_live_key(cells: &mut Cells, floats: &mut Floats, key: u32, down: u32) -> u32
    ensures { (slots addresses values rtc page : List ℕ) (onsets frequencies duties starts : List Float)
        (codes ram sram gpio fb : List ℕ) →
        (plainly (machine_of slots addresses values rtc page onsets frequencies duties starts codes (parts_in
        cells.new floats.new) ram sram gpio fb) result
        ≡ step (machine_of slots addresses values rtc page onsets frequencies duties starts codes (parts_in
        cells.old floats.old) ram sram gpio fb) (steps.live key (not (eqb down 0))))
        × Answered result cells.old floats.old cells.new floats.new }
{
    map::status(time::buttons::set_live(cells, floats, key, down != 0))
}

// A tap of a key stays held until a time.
pub fn tg18_lent_hold_until(cells: &mut Cells, floats: &mut Floats, key: u32, until: f64) -> u32
    ensures { (slots addresses values rtc page : List ℕ) (onsets frequencies duties starts : List Float)
        (codes ram sram gpio fb : List ℕ) →
        (plainly (machine_of slots addresses values rtc page onsets frequencies duties starts codes (parts_in
        cells.new floats.new) ram sram gpio fb) result
        ≡ step (machine_of slots addresses values rtc page onsets frequencies duties starts codes (parts_in
        cells.old floats.old) ram sram gpio fb) (steps.hold key until))
        × Answered result cells.old floats.old cells.new floats.new }
{
    map::status(time::buttons::hold_until(cells, floats, key, until))
}

// A press of a key at a time.
pub fn tg18_lent_press(
    starts: &mut [f64; 64],
    codes: &mut [u8; 64],
    cells: &mut Cells,
    floats: &Floats,
    key: u32,
    at: f64,
) -> u32
    ensures { (slots addresses values rtc page : List ℕ) (onsets frequencies duties : List Float)
        (ram sram gpio fb : List ℕ) →
        (plainly (machine_of slots addresses values rtc page onsets frequencies duties starts.new
        codes.new (parts_in cells.new floats.now) ram sram gpio fb) result
        ≡ step (machine_of slots addresses values rtc page onsets frequencies duties starts.old
        codes.old (parts_in cells.old floats.now) ram sram gpio fb) (steps.press key
        at))
        × Answered result cells.old floats.now cells.new floats.now }
{
    map::status(time::buttons::press(starts, codes, cells, floats, key, at))
}

fn number(held: Held) -> u32
    ensures { result ≡ bit held.a + bit held.b * 2 + bit held.c * 4 }
{
    u32::from(held.a) + u32::from(held.b) * 2 + u32::from(held.c) * 4
}

// Which keys are down now: 1 A, 2 B, 4 C, added.
pub fn tg18_lent_keys_held(
    starts: &[f64; 64],
    codes: &[u8; 64],
    cells: &Cells,
    floats: &Floats,
) -> u32
    ensures { (slots addresses values rtc page : List ℕ) (onsets frequencies duties : List Float)
        (ram sram gpio fb : List ℕ) →
        words (machine_of slots addresses values rtc page onsets frequencies duties starts.now
        codes.now (parts_in cells.now floats.now) ram sram gpio fb) 0 result 0 0
        ≡ step (machine_of slots addresses values rtc page onsets frequencies duties starts.now
        codes.now (parts_in cells.now floats.now) ram sram gpio fb) steps.keys_held }
{
    let keys = state::rests::keys_of(cells, floats);
    let moment = state::moments::times_of(floats);
    number(keys::down::keys_held(starts, codes, keys, moment.now))
}
