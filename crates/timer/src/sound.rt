// The buzzer, which follows timer 4.
ghost use Rattle.std.specs.Prelude.{◌≡◌};
ghost use Rattle.timer.specs.Sound.{silence, tone_of, sounded_of};

use crate::{Tone, period, rate};
use map::Refusal;

// The buzzer as it is after a wipe, and where timer 4 does not run.
pub fn silent() -> Tone
    ensures { result ≡ silence }
{
    Tone {
        frequency: 0.0,
        duty: 0.5,
    }
}

// The tone that timer 4's words give.
pub fn tone(clock: u32, control: u32, reload: u32, compare: u32) -> Tone
    ensures { result ≡ tone_of clock control reload compare }
{
    if control & 0x2000 == 0 {
        return silent();
    }
    let p = period(reload) as f64;
    let high = period(compare) as f64;
    Tone {
        frequency: rate(clock, control) / p,
        duty: (high / p).clamp(0.05, 0.95),
    }
}

// The words are those that a write would leave, so that a write that is refused can be left undone. `full` says that
// 256 events wait. A tone that differs is the answer; its event is the time and the tone.
pub fn sound_update(
    state: Tone,
    full: bool,
    clock: u32,
    control: u32,
    reload: u32,
    compare: u32,
) -> Result<Option<Tone>, Refusal>
    ensures { result ≡ sounded_of state full (tone_of clock control reload compare) }
{
    let new = tone(clock, control, reload, compare);
    if new != state {
        if full {
            return Err(Refusal::SoundFull);
        }
        return Ok(Some(new));
    }
    Ok(None)
}
