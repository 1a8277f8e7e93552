// How fast game time goes: set_turbo.
ghost use Rattle.std.specs.Prelude.{◌≡◌, ℕ, List};
ghost use Rattle.map.specs.Refusals.{number_of};
ghost use Rattle.clock.specs.Times.{paced_of};
ghost use Rattle.state.specs.Bank.{times_in, parts_in};
ghost use Rattle.state.specs.Packed.{Answered};
ghost use Rattle.time.specs.Bank.{asked, paced_put};

use map::Refusal;
use state::Floats;
use whole::limits::Given;

// The turbo alone is put: the other times are those that the bank has.
pub fn set_turbo<T: Given>(floats: &mut Floats, to: T) -> Result<(), Refusal>
    ensures { (l : List ℕ) → (asked (parts_in l floats.new) (number_of result)
        ≡ paced_put (parts_in l floats.old) (paced_of (times_in floats.old) (T.float to)))
        × Answered (number_of result) l floats.old l floats.new }
{
    let times = state::moments::times_of(floats);
    let paced = clock::pace::set_turbo(times, to)?;
    state::moments::put_turbo(floats, paced.turbo);
    Ok(())
}
