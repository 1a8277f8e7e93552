// Numbers of some bytes, the lowest first. The place behind what is written is answered, here and in each writer.
ghost use Rattle.std.specs.Prelude.{◌+◌, ◌≤◌, length};
ghost use Rattle.memory.specs.Bytes.{bytes_of};
ghost use Rattle.whole.specs.Forms.{bits_of};
ghost use Rattle.saving.specs.Inner.{Laid};

use crate::copies::copy_out;

pub(crate) fn put(out: &mut [u8], at: usize, width: usize, value: u64) -> usize
    requires { (at + width ≤ length out.old) × (width ≤ 8) }
    ensures { Laid out.old out.new at result (bytes_of width value) }
{
    copy_out(out, at, &value.to_le_bytes()[..width])
}

pub(crate) fn put_four(out: &mut [u8], at: usize, value: u32) -> usize
    requires { at + 4 ≤ length out.old }
    ensures { Laid out.old out.new at result (bytes_of 4 value) }
{
    copy_out(out, at, &value.to_le_bytes())
}

pub(crate) fn put_float(out: &mut [u8], at: usize, value: f64) -> usize
    requires { at + 8 ≤ length out.old }
    ensures { Laid out.old out.new at result (bytes_of 8 (bits_of value)) }
{
    copy_out(out, at, &whole::forms::bits_of(value).to_le_bytes())
}
