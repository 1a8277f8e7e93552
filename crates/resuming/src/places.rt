// Where sections begin, with n other words, k presses and e sound events. specs/Layout.antt of crate session has the
// same.
ghost use Rattle.std.specs.Prelude.{◌≡◌, ◌≤◌};
ghost use Rattle.session.specs.Layout.{flags_at, ram_at};

pub(crate) const STARTS_AT: usize = 4;

pub(crate) const PENDING_AT: usize = 52;

// The number of other words stands here, and the own words behind it.
pub(crate) const WORDS_AT: usize = 58;

pub(crate) const OTHERS_AT: usize = 366;

// How far behind the flags a section begins.
pub(crate) const PANEL: usize = 6;

pub(crate) const CLOCKS: usize = 55;

pub(crate) const SOUND: usize = 387;

pub(crate) const FLASH: usize = 407;

pub(crate) const KEYS: usize = 687;

pub(crate) const PRESSES: usize = 719;

pub(crate) fn flags_at(n: usize) -> usize
    requires { n ≤ 256 }
    ensures { result ≡ flags_at n }
{
    OTHERS_AT + 8 * n
}

pub(crate) fn ram_at(n: usize, k: usize, e: usize) -> usize
    requires { (n ≤ 256) × ((k ≤ 64) × (e ≤ 256)) }
    ensures { result ≡ ram_at n k e }
{
    OTHERS_AT + 8 * n + PRESSES + 4 + 9 * k + 4 + 24 * e
}
