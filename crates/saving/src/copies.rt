// Bytes copied out.
ghost use Rattle.std.specs.Prelude.{◌+◌, ◌≤◌, length};
ghost use Rattle.saving.specs.Inner.{Laid};

pub(crate) fn copy_out(out: &mut [u8], at: usize, bytes: &[u8]) -> usize
    requires { at + length bytes.now ≤ length out.old }
    ensures { Laid out.old out.new at result bytes.now }
{
    let end = at + bytes.len();
    memory::copy(&mut out[at..end], bytes);
    end
}
