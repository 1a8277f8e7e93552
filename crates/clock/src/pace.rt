// Time goes on, within the limits.
ghost use Rattle.std.specs.Prelude.{◌≡◌};
ghost use Rattle.clock.specs.Times.{fresh_times, moved_of, paced_of};

use crate::Times;
use map::Refusal;
use whole::limits::Given;

// The times as they are after a wipe.
pub fn fresh() -> Times
    ensures { result ≡ fresh_times }
{
    Times {
        now: 0.0,
        game: 0.0,
        turbo: 1.0,
    }
}

// Later times: game time goes on as fast as the turbo says, up to its limit.
pub fn advance<T: Given>(s: Times, to: T) -> Result<Times, Refusal>
    ensures { result ≡ moved_of s (T.float to) }
{
    let Some(to) = to.time() else {
        return Err(Refusal::BadTime);
    };
    if to < s.now {
        return Err(Refusal::BadTime);
    }
    let game = s.game + (to - s.now) * s.turbo;
    if game > 2147483648.0 {
        return Err(Refusal::BadTime);
    }
    Ok(Times {
        now: to,
        game,
        turbo: s.turbo,
    })
}

// The same times at another turbo.
pub fn set_turbo<T: Given>(s: Times, to: T) -> Result<Times, Refusal>
    ensures { result ≡ paced_of s (T.float to) }
{
    let Some(turbo) = to.turbo() else {
        return Err(Refusal::BadTurbo);
    };
    Ok(Times {
        now: s.now,
        game: s.game,
        turbo,
    })
}
