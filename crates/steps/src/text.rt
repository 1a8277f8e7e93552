// What is printed, put at the end of a text.
ghost use Rattle.std.specs.Prelude.{◌≡◌, ◌+◌, ◌≤◌, length};
ghost use Rattle.arrayvec.specs.ArrayVec.{array_vec_len, Extends};
ghost use Rattle.steps.specs.Text.{field as Text·field, hex_line, bad_line, text_of, count_programmed, last_line};

use crate::Output;
use arrayvec::ArrayVec;
use flash::Chip;

// What the bytes of one read can say has room, and so has what the end of the input says.
pub(crate) const ROOM: usize = 12352;

pub(crate) type Text = ArrayVec<u8, ROOM>;

fn append(out: &mut Text, text: &[u8])
    requires { array_vec_len out.old + length text.now ≤ ROOM }
    ensures { Extends out.old text.now out.new }
{
    let _ = out.try_extend_from_slice(text);
}

// A space and the number.
fn field(out: &mut Text, n: u64)
    requires { array_vec_len out.old + 21 ≤ ROOM }
    ensures text { Extends out.old (Text·field n) out.new }
    ensures long { array_vec_len out.new ≤ array_vec_len out.old + 21 }
{
    let mut digits = [0u8; 20];
    let k = io::decimal(n, &mut digits);
    out.push(b' ');
    append(out, &digits[..k]);
}

fn hex_line(out: &mut Text, byte: u8)
    requires { array_vec_len out.old + 3 ≤ ROOM }
    ensures { Extends out.old (hex_line byte) out.new }
{
    let mut digits = [0u8; 16];
    let _ = io::hex(u64::from(byte), 2, &mut digits);
    append(out, &digits[..2]);
    out.push(b'\n');
}

#[tactic(auto, unfolding(crate::specs::Text::bad_line))]
fn bad_line(out: &mut Text, number: u64)
    requires { array_vec_len out.old + 25 ≤ ROOM }
    ensures text { Extends out.old (bad_line number) out.new }
    ensures long { array_vec_len out.new ≤ array_vec_len out.old + 25 }
{
    append(out, b"bad");
    field(out, number);
    out.push(b'\n');
}

pub(crate) fn spell(out: &mut Text, output: Output)
    requires { array_vec_len out.old + 25 ≤ ROOM }
    ensures text { Extends out.old (text_of output) out.new }
    ensures long { array_vec_len out.new ≤ array_vec_len out.old + 25 }
{
    match output {
        Output::Nothing => {}
        Output::Answer(byte) => hex_line(out, byte),
        Output::Bad(number) => bad_line(out, number),
    }
}

// How many bytes are not FF.
#[tactic(auto, using(crate::proofs::Texts::counted))]
fn count(array: &[u8]) -> usize
    ensures { result ≡ count_programmed array.now }
{
    array.iter().filter(|byte| **byte != 0xFF).count()
}

#[tactic(auto, unfolding(crate::specs::Text::last_line))]
pub(crate) fn last_line(out: &mut Text, chip: Chip, array: &[u8])
    requires { array_vec_len out.old + 67 ≤ ROOM }
    ensures { Extends out.old (last_line chip.wel chip.writes array.now) out.new }
{
    append(out, b"end");
    field(out, u64::from(chip.wel));
    field(out, chip.writes);
    field(out, count(array) as u64);
    out.push(b'\n');
}
