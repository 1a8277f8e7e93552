// Keys: scripted presses, live keys and taps.
ghost use Rattle.std.specs.Prelude.{◌≡◌};
ghost use Rattle.system.specs.Calls.{changed_by, live_of, hold_of, press_of, held_of};

use crate::System;
use crate::parts::Bank;
use keys::Held;
use map::Refusal;
use whole::limits::Given;

pub fn set_live(s: System, key: u32, down: bool) -> Result<System, Refusal>
    ensures { changed_by s result ≡ live_of s key down }
{
    let mut bank = Bank::of(s);
    time::buttons::set_live(&mut bank.cells, &mut bank.floats, key, down)?;
    Ok(bank.put_back(s))
}

pub fn hold_until<T: Given>(s: System, key: u32, until: T) -> Result<System, Refusal>
    ensures { changed_by s result ≡ hold_of s key (T.float until) }
{
    let mut bank = Bank::of(s);
    time::buttons::hold_until(&mut bank.cells, &mut bank.floats, key, until)?;
    Ok(bank.put_back(s))
}

pub fn press<T: Given>(s: System, key: u32, at: T) -> Result<System, Refusal>
    ensures { changed_by s result ≡ press_of s key (T.float at) }
{
    let mut presses = s.presses;
    let mut bank = Bank::of(s);
    time::buttons::press(
        &mut presses.starts,
        &mut presses.codes,
        &mut bank.cells,
        &bank.floats,
        key,
        at,
    )?;
    let mut system = bank.put_back(s);
    system.presses = presses;
    Ok(system)
}

pub fn keys_held(s: System) -> Held
    ensures { result ≡ held_of s }
{
    let presses = s.presses;
    keys::down::keys_held(
        &presses.starts,
        &presses.codes,
        s.keys,
        s.devices.clocks.times.now,
    )
}
