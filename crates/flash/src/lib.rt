// The SPI NOR flash: `SpiFlash` of core/src/sys.rs, in its own mode and in the data sheet's.
//
// The array is lent. `select` and `transfer` also take the page's running AND as lent memory beside a small struct of
// scalars, so that a caller that steps often moves few bytes; `SpiFlash` has both in one value.
#![tactic(auto)]

mod array;
mod buf;
mod finish;
mod xfer;

ghost use Rattle.std.specs.Prelude.{◌≡◌};
ghost use Rattle.flash.specs.Board.{board, outcome, selecting, transferring, chip_with_page, good_size};
ghost use Rattle.flash.specs.Board.{served, selecting_value, transferring_value};
ghost use Rattle.flash.specs.Flash.{transaction_begun, selected, transferred, made_in};

use map::Refusal;

// Whose rules hold: document 000's alone, or also those that are named for strict mode.
#[derive(Clone, Copy)]
pub enum Mode {
    Rust,
    Strict,
}

// A transaction: its first four bytes, its position, and whether it has more than 260 bytes. The position is exact
// through the header and then goes round modulo the array's length, so `long` is a mark of its own.
#[derive(Clone, Copy)]
pub struct Trans {
    pub cmd: u8,
    pub a1: u8,
    pub a2: u8,
    pub a3: u8,
    pub pos: usize,
    pub long: bool,
}

// What the chip holds beside the page's running AND.
#[derive(Clone, Copy)]
pub struct Chip {
    pub mode: Mode,
    pub cs: bool,
    pub wel: bool,
    pub writes: u64,
    pub rx: u8,
    pub tx: Trans,
}

// What the first byte asks to be answered.
#[derive(Drop)]
pub(crate) enum Kind {
    Identity,
    Maker,
    Device,
    Status,
    Zero,
    Read,
    FastRead,
    Unique,
    Other,
}

// What a deselect does.
#[derive(Clone, Copy)]
pub(crate) enum Act {
    Nothing,
    Enable,
    Disable,
    Program,
    Erase(Block),
    EraseAll,
}

#[derive(Clone, Copy)]
pub(crate) enum Block {
    Sector,
    Half,
    Full,
}

// A power of two from 65,536 to 8,388,608.
fn good(n: usize) -> bool
    ensures { result ≡ good_size n }
{
    matches!(
        n,
        0x1_0000 | 0x2_0000 | 0x4_0000 | 0x8_0000 | 0x10_0000 | 0x20_0000 | 0x40_0000 | 0x80_0000
    )
}

// The chip selected, with a transaction of no bytes.
fn begin(chip: Chip) -> Chip
    ensures { result ≡ transaction_begun chip }
{
    Chip {
        cs: true,
        tx: buf::start(),
        ..chip
    }
}

// flash_select. A second select is no boundary, and a deselect of the chip that is not selected does nothing.
pub fn select(chip: Chip, page: &mut [u8; 256], array: &mut [u8], on: bool) -> Result<Chip, Refusal>
    ensures { outcome (selecting chip result) page.new array.new ≡ selected
        (board chip page.old array.old) on }
{
    let ok = good(array.len());
    let cs = chip.cs;
    if !ok {
        return Err(Refusal::BadMemory);
    }
    if on {
        if cs {
            return Ok(chip);
        }
        buf::clear(page);
        return Ok(begin(chip));
    }
    if !cs {
        return Ok(chip);
    }
    let ended = finish::finish(chip, page, array);
    Ok(Chip { cs: false, ..ended })
}

// flash_xfer: the answered byte, and the later chip. It looks at no select: a transfer while unselected counts and
// answers.
pub fn transfer(
    chip: Chip,
    page: &mut [u8; 256],
    array: &[u8],
    byte: u8,
) -> Result<(u8, Chip), Refusal>
    ensures { outcome (transferring chip result) page.new array.now ≡ transferred
        (board chip page.old array.now) byte }
{
    let n = array.len();
    let ok = good(n);
    if !ok {
        return Err(Refusal::BadMemory);
    }
    let rx = xfer::answer(chip, array);
    let t = buf::push(chip.tx, n, byte);
    buf::gather(chip.tx, page, byte);
    Ok((rx, Chip { rx, tx: t, ..chip }))
}

// A chip as it is made, in a named mode, and its page.
pub fn made(mode: Mode, page: &mut [u8; 256]) -> Chip
    ensures { chip_with_page result page.new ≡ made_in mode }
{
    let t = buf::start();
    buf::clear(page);
    Chip {
        mode,
        cs: false,
        wel: false,
        writes: 0,
        rx: 0,
        tx: t,
    }
}

// ---- the same by value

// The chip with the page's running AND.
#[derive(Clone, Copy)]
pub struct SpiFlash {
    pub chip: Chip,
    pub page: [u8; 256],
}

impl SpiFlash {
    // Where no mode is named, the Rust's.
    pub fn new() -> SpiFlash
        ensures { result ≡ made_in Mode.Rust }
    {
        SpiFlash::with_mode(Mode::Rust)
    }

    pub fn with_mode(mode: Mode) -> SpiFlash
        ensures { result ≡ made_in mode }
    {
        let mut page = [0; 256];
        let chip = made(mode, &mut page);
        SpiFlash { chip, page }
    }

    pub fn select(self, array: &mut [u8], on: bool) -> Result<SpiFlash, Refusal>
        ensures { served (selecting_value self result) array.new ≡ selected
            (board self.chip self.page array.old) on }
    {
        let mut page = self.page;
        let chip = select(self.chip, &mut page, array, on)?;
        Ok(SpiFlash { chip, page })
    }

    pub fn transfer(self, array: &[u8], byte: u8) -> Result<(u8, SpiFlash), Refusal>
        ensures { served (transferring_value self result) array.now ≡ transferred
            (board self.chip self.page array.now) byte }
    {
        let mut page = self.page;
        let (answer, chip) = transfer(self.chip, &mut page, array, byte)?;
        Ok((answer, SpiFlash { chip, page }))
    }
}
