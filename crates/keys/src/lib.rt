// Keys: scripted presses, live keys, taps that stay held, and the GPIO lines that they drive.
//
// A press is a time and a key's code at one place of two lent arrays; `Keys` is the rest of the state. Any value is a
// state: a count above 64 counts as 64.
#![tactic(auto)]

pub mod down;
pub mod edges;
pub mod gpio;
pub mod presses;

ghost use Rattle.std.specs.Prelude.{◌≡◌};
ghost use Rattle.keys.specs.Keys.{buttons, fresh_keys, fresh_buttons};

// Which of the keys A, B and C are down.
#[derive(Clone, Copy)]
pub struct Held {
    pub a: bool,
    pub b: bool,
    pub c: bool,
}

// Until when a quick tap of each stays held.
#[derive(Clone, Copy)]
pub struct Holds {
    pub a: f64,
    pub b: f64,
    pub c: f64,
}

// How many places hold presses; the live keys; the taps; and what was last driven, the Rust's gpio_applied[1].
#[derive(Clone, Copy)]
pub struct Keys {
    pub count: usize,
    pub live: Held,
    pub holds: Holds,
    pub applied: u32,
}

// The keys as they are after a wipe.
pub fn fresh() -> Keys
    ensures { result ≡ fresh_keys }
{
    Keys {
        count: 0,
        live: Held {
            a: false,
            b: false,
            c: false,
        },
        holds: Holds {
            a: 0.0,
            b: 0.0,
            c: 0.0,
        },
        applied: 0,
    }
}

// The wipe: no presses, whatever the arrays held.
pub fn clear(starts: &mut [f64; 64], codes: &mut [u8; 64]) -> Keys
    ensures { buttons starts.new codes.new result ≡ fresh_buttons }
{
    *starts = [0.0; 64];
    *codes = [0; 64];
    fresh()
}
