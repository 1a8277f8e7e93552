// Numbers in other forms: a float as its bits, the low half of a word; and one of two by a flag.
ghost use Rattle.std.specs.Prelude.{◌≡◌, ◌%◌, ◌^◌, if◌then◌else◌};
ghost use Rattle.whole.specs.Forms.{bits_of};

// The bits of a float. All NaNs have one pattern here, since none is laid down.
pub fn bits_of(x: f64) -> u64
    ensures { result ≡ bits_of x }
{
    std::num::f64_to_bits_with_nan(x)
}

// The number modulo 2^32.
pub fn low(n: u64) -> u32
    ensures { result ≡ n % 2 ^ 32 }
{
    (n % 0x1_0000_0000) as u32
}

// One of two values, with no branch for the caller.
pub fn choose<T: Copy>(here: bool, a: T, b: T) -> T
    ensures { result ≡ (if here then a else b) }
{
    if here { a } else { b }
}
