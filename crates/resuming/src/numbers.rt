// Numbers of up to eight bytes read, the lowest first.
ghost use Rattle.std.specs.Prelude.{◌≡◌, ◌+◌, ◌≤◌, ◌<◌, length};
ghost use Rattle.session.specs.Fields.{number, span};

pub(crate) fn number(s: &[u8], at: usize, width: usize) -> u64
    requires { (at + width ≤ length s.now) × (width ≤ 8) }
    ensures { (result ≡ number s.now at width) × (result < span width) }
{
    let mut bytes = [0; 8];
    bytes[..width].copy_from_slice(&s[at..at + width]);
    u64::from_le_bytes(bytes)
}

pub(crate) fn byte(s: &[u8], at: usize) -> u8
    requires { at + 1 ≤ length s.now }
    ensures { result ≡ number s.now at 1 }
{
    s[at]
}

pub(crate) fn four(s: &[u8], at: usize) -> u32
    requires { at + 4 ≤ length s.now }
    ensures { result ≡ number s.now at 4 }
{
    number(s, at, 4) as u32
}

// A count of four bytes.
pub(crate) fn count(s: &[u8], at: usize) -> usize
    requires { at + 4 ≤ length s.now }
    ensures { result ≡ number s.now at 4 }
{
    four(s, at) as usize
}
