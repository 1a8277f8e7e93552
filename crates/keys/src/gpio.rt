// The lines that the keys drive: bits 5, 6 and 7 of GPIO port 1, whose word stands at 0x20. No key has a pin at
// another port.
ghost use Rattle.std.specs.Prelude.{◌≡◌};
ghost use Rattle.keys.specs.Lines.{wanted, driven, lines, sync_of};

use crate::Held;
use whole::forms::choose;

fn want(held: Held) -> u32
    ensures { result ≡ wanted held }
{
    choose(held.a, 0x20, 0) | choose(held.b, 0x40, 0) | choose(held.c, 0x80, 0)
}

fn drive(word: u32, applied: u32, want: u32) -> u32
    ensures { result ≡ driven word applied want }
{
    (word & !applied) | want
}

// The lines as the keys want them, where that changed; the answer is what is applied from now on.
pub fn sync_gpio(gpio: &mut [u8], applied: u32, held: Held) -> u32
    ensures { lines gpio.new result ≡ sync_of gpio.old applied held }
{
    let want = want(held);
    if want == applied {
        return applied;
    }
    let word = memory::load(&*gpio, 0x20, 4);
    memory::store(gpio, 0x20, 4, drive(word, applied, want));
    want
}
