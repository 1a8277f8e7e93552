// The flash's scalars.
ghost use Rattle.std.specs.Prelude.{◌≡◌};
ghost use Rattle.state.specs.Parts.{flash_put, sent_put};
ghost use Rattle.state.specs.Bank.{mode_in, chip_in};
ghost use Rattle.state.specs.Packed.{chip_cells, sent_cells, laid_at, CellsPut};

use crate::Cells;
use crate::numbers::byte;
use crate::places::{A1, A2, A3, CMD, CS, LONG, MODE, POS, RX, WEL, WRITES};
use flash::{Chip, Mode, Trans};

// No From: neither type is this crate's, and crate flash knows nothing of a bank.
fn mode_of(n: u64) -> Mode
    ensures { result ≡ mode_in n }
{
    if n == 0 { Mode::Rust } else { Mode::Strict }
}

pub fn chip_of(cells: &Cells) -> Chip
    ensures { result ≡ chip_in cells.now }
{
    let mode = mode_of(cells[MODE]);
    let tx = Trans {
        cmd: byte(cells[CMD]),
        a1: byte(cells[A1]),
        a2: byte(cells[A2]),
        a3: byte(cells[A3]),
        pos: cells[POS] as usize,
        long: cells[LONG] != 0,
    };
    Chip {
        mode,
        cs: cells[CS] != 0,
        wel: cells[WEL] != 0,
        writes: cells[WRITES],
        rx: byte(cells[RX]),
        tx,
    }
}

// The answer and the transaction, which are all that a transfer changes.
pub fn put_sent(cells: &mut Cells, rx: u8, tx: Trans)
    ensures { CellsPut cells.old cells.new
        (laid_at cells.old 4 (sent_cells rx tx)) (λ x. sent_put x rx tx) }
{
    cells[RX] = rx as u64;
    cells[CMD] = tx.cmd as u64;
    cells[A1] = tx.a1 as u64;
    cells[A2] = tx.a2 as u64;
    cells[A3] = tx.a3 as u64;
    cells[POS] = tx.pos as u64;
    cells[LONG] = u64::from(tx.long);
}

pub fn put_chip(cells: &mut Cells, chip: Chip)
    ensures { CellsPut cells.old cells.new
        (laid_at cells.old 0 (chip_cells chip)) (λ x. flash_put x chip) }
{
    cells[MODE] = chip.mode as u64;
    cells[CS] = u64::from(chip.cs);
    cells[WEL] = u64::from(chip.wel);
    cells[WRITES] = chip.writes;
    put_sent(cells, chip.rx, chip.tx);
}

pub fn rx_of(cells: &Cells) -> u8
    ensures { result ≡ (chip_in cells.now).rx }
{
    byte(cells[RX])
}

pub fn writes_of(cells: &Cells) -> u64
    ensures { result ≡ (chip_in cells.now).writes }
{
    cells[WRITES]
}
