// Bytes as a whole.
ghost use Rattle.std.specs.Prelude.{◌≡◌, length};
ghost use Rattle.io.specs.Counts.{IsPrefixLen};
ghost use Rattle.lines.specs.Bytes.{least_of, digest_of};

// How many bytes are lent where n are asked for.
pub fn lent(n: u64, bytes: &[u8]) -> usize
    ensures prefix_len { IsPrefixLen result bytes.now }
    ensures value { result ≡ least_of n (length bytes.now) }
{
    n.min(bytes.len() as u64) as usize
}

// From 0 on, each byte makes it 31 times as much and the byte more, modulo 2^64.
pub fn digest(bytes: &[u8]) -> u64
    ensures { result ≡ digest_of bytes.now }
{
    bytes.iter().fold(0u64, |digest, &byte| {
        digest.wrapping_mul(31).wrapping_add(u64::from(byte))
    })
}
