// A cell as a number of fewer bits. std has no conversion that drops the rest.
ghost use Rattle.std.specs.Prelude.{◌≡◌, ◌%◌};

pub(crate) fn byte(n: u64) -> u8
    ensures { result ≡ n % 256 }
{
    (n % 256) as u8
}

pub(crate) fn half(n: u64) -> u16
    ensures { result ≡ n % 65536 }
{
    (n % 65536) as u16
}
