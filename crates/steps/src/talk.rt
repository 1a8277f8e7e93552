// The session with a partner, which a reader and a writer stand for.
ghost use Rattle.std.specs.Prelude.{◌≡◌, ◌+◌, ◌*◌, ◌≤◌, [], length};
ghost use Rattle.steps.specs.Machine.{printed, after_bytes, finished, closed, erased_array, new_session};
ghost use Rattle.steps.specs.Inner.{world_of, Reaches};
ghost use Rattle.steps.specs.Machine.{RunEnd};

use crate::text::{ROOM, Text, last_line, spell};
use crate::{Line, Session, feed, finish};
use flash::{Chip, Mode};
use std::io::{Read, Write};

// What a turn of the conversation came to.
#[derive(Clone, Copy, PartialEq, Eq)]
enum Turn {
    // There may be more to read.
    More,
    // The input has ended, or the session is over.
    End,
    // An answer could not be written.
    Lost,
}

// A session, with the page and the array that its chip works on.
#[derive(Drop)]
struct Desk {
    session: Session,
    page: [u8; 256],
    array: [u8; 65536],
}

impl Desk {
    // All bytes of a chunk. A byte says at most 3 bytes, but for a bad line, which is the last that is said and has at
    // most 25; 25 more are asked for, so that there is room before it is known what a byte says.
    fn answer(&mut self, chunk: &[u8], out: &mut Text)
        requires room { 3 * length chunk.now + 50 ≤ ROOM }
        requires empty { out.old.items ≡ [] }
        ensures { printed out.new.items (world_of self.new) ≡ after_bytes (world_of self.old) chunk.now }
    {
        for &byte in chunk {
            let fed = feed(self.session, &mut self.page, &mut self.array, byte);
            self.session = fed.session;
            spell(out, fed.output);
        }
    }

    // Takes what is there, with one read, and writes every answer to it before the next read: a partner that waits for
    // an answer has it, where the writer keeps nothing back, as standard output does. A read that fails is the end of
    // the input, since a bad line alone ends a session without its last line. What 4,096 bytes can say has room. The
    // text is lent, so that the stack holds one, and what it held before is gone.
    fn listen<R: Read, W: Write>(&mut self, input: &mut R, output: &mut W, out: &mut Text) -> Turn
        ensures { Reaches (world_of self.old) (world_of self.new) }
    {
        let mut chunk = [0u8; 4096];
        let n = input.read(&mut chunk).unwrap_or(0);
        if n == 0 {
            return Turn::End;
        }
        out.clear();
        self.answer(&chunk[..n], out);
        match output.write_all(out.as_slice()) {
            Err(_) => Turn::Lost,
            Ok(()) if self.session.over => Turn::End,
            Ok(()) => Turn::More,
        }
    }

    // Nothing says that the input ends, so the turns are counted, up to a number that no run uses up.
    fn converse<R: Read, W: Write>(&mut self, input: &mut R, output: &mut W, out: &mut Text) -> Turn
        ensures { Reaches (world_of self.old) (world_of self.new) }
    {
        for _ in 0..u64::MAX {
            let turn = self.listen(input, output, out);
            if turn != Turn::More {
                return turn;
            }
        }
        Turn::More
    }

    // The end of the input: what a line without its newline says, at most 25 bytes, and the last line, at most 67,
    // where no line was bad.
    fn close(&mut self, out: &mut Text)
        requires { out.old.items ≡ [] }
        ensures { printed out.new.items (world_of self.new) ≡ closed (finished (world_of self.old)) }
    {
        let fed = finish(self.session, &mut self.page, &mut self.array);
        self.session = fed.session;
        spell(out, fed.output);
        if !self.session.over {
            last_line(out, self.session.chip, &self.array);
        }
    }
}

#[tactic(auto, unfolding(crate::specs::Machine::erased_array))]
fn erase() -> [u8; 65536]
    ensures array { result ≡ erased_array }
    ensures size { 65536 ≡ length result }
{
    [0xFF; 65536]
}

fn begin(chip: Chip) -> Session
    ensures { result ≡ new_session chip }
{
    Session {
        chip,
        line: Line::Empty,
        number: 1,
        over: false,
    }
}

// A whole session, with a chip made in that mode over 65,536 bytes of FF. The contract says no more of what is read
// and written than that the answer is where a run on some input ends; what a run prints is `whole_run` of
// specs/Machine.antt, and `prints` of specs/Lines.antt says the same by lines. Once a write fails nothing more is
// written.
pub fn serve<R: Read, W: Write>(mode: Mode, input: &mut R, output: &mut W) -> Session
    ensures { RunEnd mode result }
{
    let mut page = [0u8; 256];
    let chip = flash::made(mode, &mut page);
    let mut desk = Desk {
        session: begin(chip),
        page,
        array: erase(),
    };
    let mut out = Text::new();
    let turn = desk.converse(input, output, &mut out);
    out.clear();
    desk.close(&mut out);
    if turn != Turn::Lost {
        let _ = output.write_all(out.as_slice());
    }
    desk.session
}
