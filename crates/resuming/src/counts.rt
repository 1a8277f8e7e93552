// How long the tables of a good session are.
ghost use Rattle.std.specs.Prelude.{◌≡◌, true};
ghost use Rattle.session.specs.Good.{good_session};
ghost use Rattle.resuming.specs.Inner.{Shape};

use crate::numbers::count;
use crate::places::{PRESSES, WORDS_AT, flags_at};

#[derive(Drop)]
pub(crate) struct Counts {
    pub(crate) words: usize,
    pub(crate) presses: usize,
    pub(crate) events: usize,
}

pub(crate) fn counts_of(s: &[u8]) -> Counts
    requires { good_session s.now ≡ true }
    ensures { Shape s.now result.words result.presses result.events }
{
    let n = count(s, WORDS_AT);
    let p = flags_at(n);
    let k = count(s, p + PRESSES);
    let e = count(s, p + PRESSES + 4 + 9 * k);
    Counts {
        words: n,
        presses: k,
        events: e,
    }
}
