// Bytes of the framebuffer.
ghost use Rattle.std.specs.Prelude.{◌≡◌, slice_index, slice_set};

// The byte at a place, 0 past the end.
pub fn load(s: &[u8], i: usize) -> u8
    ensures { result ≡ slice_index s.now i }
{
    s.get(i).copied().unwrap_or(0)
}

// A byte at a place, where there is such a place.
pub fn store(s: &mut [u8], i: usize, v: u8)
    ensures { s.new ≡ slice_set s.old i v }
{
    if i < s.len() {
        s[i] = v;
    }
}
