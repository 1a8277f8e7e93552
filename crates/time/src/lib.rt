// Time over all devices: interrupts, advance, timers_resync, next_event and set_turbo of core/src/sys.rs; the keys; and
// the sound events that wait.
//
// The scalars are the bank's (crate state). Every word that is read or set here has storage of its own, so those words
// alone are lent and not the table of the others.
#![tactic(auto)]

ghost use Rattle.std.specs.Prelude.{◌≡◌};
ghost use Rattle.time.specs.Clocks.{clock_in};

pub mod advancing;
pub mod buttons;
pub mod irq;
pub mod next;
pub mod pace;
pub mod resync;
pub mod tones;

// The system clock's word, which firmware keeps in SRAM: the Rust's SYSCLK_VAR.
pub fn sysclk_var(sram: &[u8]) -> u32
    ensures { result ≡ clock_in sram.now }
{
    memory::load(sram, map::SYSCLK_AT, 4)
}
