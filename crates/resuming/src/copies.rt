// Bytes copied in.
ghost use Rattle.std.specs.Prelude.{◌≡◌, ◌+◌, ◌≤◌, length};
ghost use Rattle.session.specs.Fields.{part};

// As many bytes as there is room for.
pub(crate) fn copy_in(bytes: &mut [u8], s: &[u8], at: usize)
    requires { at + length bytes.old ≤ length s.now }
    ensures { bytes.new ≡ part s.now at (length bytes.old) }
{
    let end = at + bytes.len();
    memory::copy(bytes, &s[at..end]);
}
