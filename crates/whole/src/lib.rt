// The whole part of an f64, worked out from its bits, and the limits of times.
#![tactic(auto)]

ghost use Rattle.std.specs.Prelude.{◌≡◌};
ghost use Rattle.std.specs.Float.Ieee.{to_signed};
ghost use Rattle.whole.specs.Cut.{Cut, twos};

pub mod forms;
pub mod limits;

// x cut to a whole number toward zero, as Rust's `x as u64`: 0 for a NaN and for what is negative,
// and the largest u64 from 2^64 on.
pub fn whole(x: f64) -> u64
    ensures { Cut x result }
{
    if x != x {
        return 0;
    }
    let bits = f64::to_bits(x);
    if bits >= 0x8000_0000_0000_0000 {
        return 0;
    }
    let exponent = bits / 0x10_0000_0000_0000;
    let digits = bits % 0x10_0000_0000_0000 + 0x10_0000_0000_0000;
    if exponent < 1023 {
        return 0;
    }
    if exponent <= 1075 {
        return digits >> (1075 - exponent);
    }
    if exponent < 1087 {
        return digits << (exponent - 1075);
    }
    u64::MAX
}

// x cut toward zero as Rust's `x as i64`, given as the 64 bits of that i64, since what is done with
// it goes round at 2^64.
pub fn whole_signed(x: f64) -> u64
    ensures { result ≡ twos (to_signed 63 x) }
{
    if x < 0.0 {
        let below = whole(-x);
        if below >= 0x8000_0000_0000_0000 {
            return 0x8000_0000_0000_0000;
        }
        return (u64::MAX - below).wrapping_add(1);
    }
    let n = whole(x);
    if n >= 0x8000_0000_0000_0000 {
        return 0x7FFF_FFFF_FFFF_FFFF;
    }
    n
}
