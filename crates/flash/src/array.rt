// Parts of the array. Each step is lent the part that it works on, and nothing else.
ghost use Rattle.std.specs.Prelude.{◌≡◌, ◌+◌, ◌≤◌, length, take, drop, replicate};
ghost use Rattle.flash.specs.Finish.{ands, patch};

pub(crate) fn fill(part: &mut [u8])
    ensures { part.new ≡ replicate (length part.old) 0xFF }
{
    part.fill(0xFF);
}

fn program(part: &mut [u8], mask: &[u8; 256])
    requires { length part.old ≡ 256 }
    ensures { part.new ≡ ands part.old mask.now }
{
    for (k, b) in part.iter_mut().enumerate() {
        *b &= mask[k];
    }
}

pub(crate) fn program_page(array: &mut [u8], start: usize, mask: &[u8; 256])
    requires { start + 256 ≤ length array.old }
    ensures { array.new ≡ patch array.old start 256
        (ands (take 256 (drop start array.old)) mask.now) }
{
    let end = start + 256;
    program(&mut array[start..end], mask);
}

pub(crate) fn erase_block(array: &mut [u8], start: usize, size: usize)
    requires { start + size ≤ length array.old }
    ensures { array.new ≡ patch array.old start size (replicate size 0xFF) }
{
    let end = start + size;
    fill(&mut array[start..end]);
}
