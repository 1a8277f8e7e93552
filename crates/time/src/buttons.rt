// Keys: scripted presses, live keys and taps.
ghost use Rattle.std.specs.Prelude.{◌≡◌};
ghost use Rattle.map.specs.Refusals.{number_of};
ghost use Rattle.keys.specs.Live.{live_of, hold_of};
ghost use Rattle.keys.specs.Script as script;
ghost use Rattle.state.specs.Bank.{times_in, keys_in, parts_in};
ghost use Rattle.state.specs.Packed.{Answered};
ghost use Rattle.time.specs.Bank.{asked, keys_asked, pressed, pressed_of};

use map::Refusal;
use state::{Cells, Floats};
use whole::limits::Given;

// A key goes down or up. A refusal leaves every word as it was.
pub fn set_live(cells: &mut Cells, floats: &mut Floats, key: u32, down: bool) -> Result<(), Refusal>
    ensures { (asked (parts_in cells.new floats.new) (number_of result)
        ≡ keys_asked (parts_in cells.old floats.old) (live_of (keys_in cells.old
        floats.old) key down))
        × Answered (number_of result) cells.old floats.old cells.new floats.new }
{
    keys::down::check_key(key)?;
    state::rests::put_live(cells, key as usize, down);
    Ok(())
}

// A tap of a key stays held until a time.
pub fn hold_until<T: Given>(
    cells: &mut Cells,
    floats: &mut Floats,
    key: u32,
    until: T,
) -> Result<(), Refusal>
    ensures { (asked (parts_in cells.new floats.new) (number_of result)
        ≡ keys_asked (parts_in cells.old floats.old) (hold_of (keys_in cells.old
        floats.old) key (T.float until)))
        × Answered (number_of result) cells.old floats.old cells.new floats.new }
{
    let until = keys::down::check_hold(key, until)?;
    state::rests::put_hold(floats, key as usize, until);
    Ok(())
}

// A press of a key at a time.
pub fn press<T: Given>(
    starts: &mut [f64; 64],
    codes: &mut [u8; 64],
    cells: &mut Cells,
    floats: &Floats,
    key: u32,
    at: T,
) -> Result<(), Refusal>
    ensures { (pressed starts.new codes.new (asked (parts_in cells.new
        floats.now) (number_of result))
        ≡ pressed_of (parts_in cells.old floats.now)
        (script.press_of (script.script starts.old codes.old (keys_in cells.old
        floats.now).count) key (T.float at) (times_in floats.now).now))
        × Answered (number_of result) cells.old floats.now cells.new floats.now }
{
    let moment = state::moments::times_of(floats);
    let before = state::rests::keys_of(cells, floats);
    let count = keys::presses::press(starts, codes, before.count, key, at, moment.now)?;
    state::rests::put_count(cells, count);
    Ok(())
}
