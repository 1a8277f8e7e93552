// Register words written: the 76 own ones, and the others with their addresses, which rise. In the table they fall,
// and the free places come last.
ghost use Rattle.std.specs.Prelude.{◌≡◌, ◌+◌, ◌≤◌, length};
ghost use Rattle.session.specs.Sections.{used_of, slot_bytes, other_row, other_bytes};
ghost use Rattle.saving.specs.Inner.{Laid};

use crate::numbers::put_four;

// How many places come before the first that is free.
pub(crate) fn used(values: &[u32; 256]) -> usize
    ensures { (result ≡ used_of values.now) × (result ≤ 256) }
{
    values.iter().position(|&value| value == 0).unwrap_or(256)
}

pub(crate) fn lay_slots(out: &mut [u8], at: usize, slots: &[u32; 76]) -> usize
    requires { at + length (slot_bytes slots.now) ≤ length out.old }
    ensures { Laid out.old out.new at result (slot_bytes slots.now) }
{
    let mut next = at;
    for word in slots {
        next = put_four(out, next, *word);
    }
    next
}

fn lay_other(out: &mut [u8], at: usize, addr: u32, value: u32) -> usize
    requires { at + length (other_row addr value) ≤ length out.old }
    ensures { Laid out.old out.new at result (other_row addr value) }
{
    let next = put_four(out, at, addr);
    put_four(out, next, value)
}

// From the last of n places to the first.
pub(crate) fn lay_others(
    out: &mut [u8],
    at: usize,
    addresses: &[u32; 256],
    values: &[u32; 256],
    n: usize,
) -> usize
    requires { (at + length (other_bytes addresses.now values.now n) ≤ length out.old) × (n ≤ 256) }
    ensures { Laid out.old out.new at result
        (other_bytes addresses.now values.now n) }
{
    let mut next = at;
    for i in (0..n).rev() {
        next = lay_other(out, next, addresses[i], values[i]);
    }
    next
}
