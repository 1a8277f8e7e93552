// The times and turbos that are accepted, of a float or of its bits; and what is finite.
ghost use Rattle.std.specs.Prelude.{◌≡◌, from_bits, Float};
ghost use Rattle.std.specs.Float.{binary64};
ghost use Rattle.whole.specs.Limits.{finite, good_time, good_game, good_turbo, given_of, time_of, turbo_of};

use std::num::f64_to_bits_with_nan;

// The patterns of floats with a clear sign are in the floats' order, and those of infinity and of
// NaNs above all others; a set sign bit is above those. So one comparison refuses them all.
fn time_bits(bits: u64) -> bool
    ensures { result ≡ good_time (from_bits binary64 bits) }
{
    bits <= 0x4140_0000_0000_0000
}

fn turbo_bits(bits: u64) -> bool
    ensures { result ≡ good_turbo (from_bits binary64 bits) }
{
    (bits >= 0x3F50_0000_0000_0000) & (bits <= 0x4090_0000_0000_0000)
}

fn game_bits(bits: u64) -> bool
    ensures { result ≡ good_game (from_bits binary64 bits) }
{
    bits <= 0x41E0_0000_0000_0000
}

pub fn good_time(x: f64) -> bool
    ensures { result ≡ good_time x }
{
    time_bits(f64_to_bits_with_nan(x))
}

pub fn good_turbo(x: f64) -> bool
    ensures { result ≡ good_turbo x }
{
    turbo_bits(f64_to_bits_with_nan(x))
}

pub fn good_game(x: f64) -> bool
    ensures { result ≡ good_game x }
{
    game_bits(f64_to_bits_with_nan(x))
}

pub fn finite(x: f64) -> bool
    ensures { result ≡ finite x }
{
    x.is_finite()
}

// All patterns of what is no number are one.
pub fn float_of(bits: u64) -> f64
    ensures { result ≡ from_bits binary64 bits }
{
    std::num::f64_from_bits_with_nan(bits)
}

// A float as a caller has it: the float, or its bits.
pub trait Given: Copy {
    ghost float: { Self → Float };

    // The float, where it is a good time.
    fn time(self) -> Option<f64>
        ensures { result ≡ given_of (good_time (float self)) (float self) };

    // The float, where it is a good turbo.
    fn turbo(self) -> Option<f64>
        ensures { result ≡ given_of (good_turbo (float self)) (float self) };
}

impl Given for f64 {
    ghost float = { λ x. x };

    fn time(self) -> Option<f64> {
        if good_time(self) { Some(self) } else { None }
    }

    fn turbo(self) -> Option<f64> {
        if good_turbo(self) { Some(self) } else { None }
    }
}

// The bits of a float, as scripts have it. No NaN's pattern becomes a float: the test comes first.
#[derive(Clone, Copy)]
pub struct Bits(pub u64);

impl Given for Bits {
    ghost float = { λ bits. from_bits binary64 bits.0 };

    fn time(self) -> Option<f64>
        ensures { result ≡ time_of self.0 }
    {
        if time_bits(self.0) {
            return Some(f64::from_bits(self.0));
        }
        None
    }

    fn turbo(self) -> Option<f64>
        ensures { result ≡ turbo_of self.0 }
    {
        if turbo_bits(self.0) {
            return Some(f64::from_bits(self.0));
        }
        None
    }
}
