// Answers, and their bytes in the output.
ghost use Rattle.std.specs.Prelude.{◌≡◌, ◌<◌};
ghost use Rattle.map.specs.Refusals.{number_of};
ghost use Rattle.entries.specs.Answers.{reply, stored_wide, answer_laid, laid_within};

use crate::Answer;
use map::Refusal;

// The bytes of an answer: a refusal and three numbers.
pub const ANSWER_BYTES: usize = map::ANSWER_BYTES;

pub(crate) fn numbers(refusal: u8, a: u64, b: u64, c: u64) -> Answer
    ensures { result ≡ reply refusal a b c }
{
    Answer { refusal, a, b, c }
}

// Of a call whose answer is no more than that it is done, or why not.
pub fn plain<T: Drop>(answer: Result<T, Refusal>) -> Answer
    ensures { result ≡ reply (number_of answer) 0 0 0 }
{
    match answer {
        Ok(_) => numbers(map::DONE, 0, 0, 0),
        Err(refusal) => numbers(u8::from(refusal), 0, 0, 0),
    }
}

// Eight bytes, the lowest first.
fn store_wide(out: &mut [u8], at: usize, value: u64)
    requires { at < 1000000 }
    ensures { out.new ≡ stored_wide out.old at value }
{
    memory::store(out, at, 4, (value % 0x1_0000_0000) as u32);
    memory::store(out, at + 4, 4, (value / 0x1_0000_0000) as u32);
}

// An answer, into the bytes given.
fn lay_in(bytes: &mut [u8], answer: Answer)
    ensures { bytes.new ≡ answer_laid bytes.old 0 answer }
{
    memory::store(bytes, 0, 1, answer.refusal as u32);
    store_wide(bytes, 1, answer.a);
    store_wide(bytes, 9, answer.b);
    store_wide(bytes, 17, answer.c);
}

// An answer, from a place on, if it fits. It goes into a part of known length, so that no store tests for the end; and
// to a caller that lends the output up to just that end the two tests cost nothing.
pub fn lay(out: &mut [u8], at: usize, answer: Answer)
    ensures { out.new ≡ laid_within out.old at answer }
{
    let n = out.len();
    if n < ANSWER_BYTES {
        return;
    }
    if at > n - ANSWER_BYTES {
        return;
    }
    let end = at + ANSWER_BYTES;
    lay_in(&mut out[at..end], answer);
}
