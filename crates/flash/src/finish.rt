// flash_finish: what a deselect does.
ghost use Rattle.std.specs.Prelude.{◌≡◌, ◌+◌, ◌%◌, ◌^◌, false, length};
ghost use Rattle.flash.specs.Board.{Sized, with_enable};
ghost use Rattle.flash.specs.Flash.{deselect_act};
ghost use Rattle.flash.specs.Finish.{block_size, order_of, guard_of, state_after, array_after};

use crate::array::{erase_block, fill, program_page};
use crate::buf::address;
use crate::xfer::strict;
use crate::{Act, Block, Chip};

fn size_of(block: Block) -> usize
    ensures { result ≡ block_size block }
{
    match block {
        Block::Sector => 0x1000,
        Block::Half => 0x8000,
        Block::Full => 0x10000,
    }
}

fn order(cmd: u8) -> Act
    ensures { result ≡ order_of cmd }
{
    match cmd {
        0x06 => Act::Enable,
        0x04 => Act::Disable,
        0x02 => Act::Program,
        0x20 => Act::Erase(Block::Sector),
        0x52 => Act::Erase(Block::Half),
        0xD8 => Act::Erase(Block::Full),
        0xC7 => Act::EraseAll,
        0x60 => Act::EraseAll,
        _ => Act::Nothing,
    }
}

// The guards of the Rust's match, and what strict mode asks for besides.
fn guard(act: Act, chip: Chip) -> bool
    ensures { result ≡ guard_of act chip.mode chip.wel chip.tx }
{
    let t = chip.tx;
    let mode = chip.mode;
    let len = t.pos;
    let exact = strict(mode);
    match act {
        Act::Nothing => true,
        Act::Enable => true,
        Act::Disable => true,
        Act::Program => chip.wel & (4 < len) & (!exact | !t.long),
        Act::Erase(_) => chip.wel & (4 <= len) & (!exact | (len == 4)),
        Act::EraseAll => chip.wel & (!exact | (len == 1)),
    }
}

fn decide(chip: Chip) -> Act
    ensures { result ≡ deselect_act chip }
{
    let t = chip.tx;
    let act = order(t.cmd);
    let ok = guard(act, chip);
    if t.pos == 0 {
        return Act::Nothing;
    }
    if ok {
        return act;
    }
    Act::Nothing
}

fn wrote(chip: Chip) -> Chip
    ensures { result ≡ with_enable chip false ((chip.writes + 1) % 2 ^ 64) }
{
    Chip {
        wel: false,
        writes: chip.writes.wrapping_add(1),
        ..chip
    }
}

pub(crate) fn finish(chip: Chip, page: &[u8; 256], array: &mut [u8]) -> Chip
    requires { Sized (length array.old) }
    ensures { (result ≡ state_after (deselect_act chip) chip) × (array.new ≡ array_after (deselect_act chip)
        chip.tx page.now array.old) }
{
    let t = chip.tx;
    let at = address(t, array.len());
    let act = decide(chip);
    match act {
        Act::Nothing => chip,
        Act::Enable => Chip { wel: true, ..chip },
        Act::Disable => Chip { wel: false, ..chip },
        Act::Program => {
            let start = at - at % 256;
            program_page(array, start, page);
            wrote(chip)
        }
        Act::Erase(block) => {
            let size = size_of(block);
            let start = at - at % size;
            erase_block(array, start, size);
            wrote(chip)
        }
        Act::EraseAll => {
            fill(array);
            Chip { wel: false, ..chip }
        }
    }
}
