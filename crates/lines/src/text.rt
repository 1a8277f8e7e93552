// An answer as a line: two digits and three times sixteen, one space apart, and a newline.
ghost use Rattle.std.specs.Prelude.{◌≡◌, ◌+◌, ◌^◌, ◌<◌, ◌≤◌, [], ◌∷◌, ◌++◌, length};
ghost use Rattle.io.specs.Digits.{last_digits};
ghost use Rattle.arrayvec.specs.ArrayVec.{array_vec_len, Extends};
ghost use Rattle.lines.specs.Line.{line_of};

use crate::Answer;
use arrayvec::ArrayVec;

type Line = ArrayVec<u8, 54>;

fn append(out: &mut Line, text: &[u8])
    requires { array_vec_len out.old + length text.now ≤ 54 }
    ensures { Extends out.old text.now out.new }
{
    let _ = out.try_extend_from_slice(text);
}

// All digits of n, as many as `width` says, and the byte after them.
fn field(out: &mut Line, n: u64, width: usize, after: u8)
    requires some { 1 ≤ width }
    requires most { width ≤ 16 }
    requires fits { n < 16 ^ width }
    requires room { array_vec_len out.old + width < 54 }
    ensures text { Extends out.old (last_digits 16 width n ++ (after ∷ [])) out.new }
    ensures long { array_vec_len out.new ≡ array_vec_len out.old + width + 1 }
{
    let mut digits = [0u8; 16];
    let _ = io::hex(n, width, &mut digits);
    append(out, &digits[..width]);
    out.push(after);
}

#[tactic(auto, unfolding(crate::specs::Line::line_of))]
pub fn spell(answer: Answer) -> [u8; 54]
    ensures line { result ≡ line_of answer }
    ensures full { 54 ≡ length result }
{
    let mut out = Line::new();
    field(&mut out, answer.refusal as u64, 2, b' ');
    field(&mut out, answer.a, 16, b' ');
    field(&mut out, answer.b, 16, b' ');
    field(&mut out, answer.c, 16, b'\n');
    out.into_inner().unwrap()
}
