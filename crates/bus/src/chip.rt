// The flash behind its select and transfer words. Its array is the first 8 MiB of RAM.
ghost use Rattle.std.specs.Prelude.{◌≡◌};
ghost use Rattle.bus.specs.Chip.{part_of, chipped, flashed, selected_over, sent_over, select_written, send_written};

use flash::Chip;

// How many bytes of a memory are the flash's.
fn part(n: usize) -> usize
    ensures { result ≡ part_of n }
{
    if n < map::FLASH_SIZE {
        n
    } else {
        map::FLASH_SIZE
    }
}

fn flash_select(page: &mut [u8; 256], ram: &mut [u8], chip: Chip, on: bool) -> Chip
    ensures { chipped result page.new ram.new ≡ selected_over chip page.old
        ram.old on }
{
    let n = part(ram.len());
    flash::select(chip, page, &mut ram[..n], on).unwrap_or(chip)
}

fn flash_xfer(page: &mut [u8; 256], ram: &[u8], chip: Chip, byte: u8) -> Chip
    ensures { chipped result page.new ram.now ≡ sent_over chip page.old
        ram.now byte }
{
    let n = part(ram.len());
    let (_, next) = flash::transfer(chip, page, &ram[..n], byte).unwrap_or((0, chip));
    next
}

pub(crate) fn select_write(
    slots: &mut [u32; 76],
    page: &mut [u8; 256],
    ram: &mut [u8],
    chip: Chip,
    new: u32,
) -> Chip
    ensures { flashed slots.new (chipped result page.new ram.new)
        ≡ select_written slots.old chip page.old ram.old new }
{
    registers::own_insert(slots, map::SPIFC_SELECT, new);
    flash_select(page, ram, chip, new & 0x40 != 0)
}

pub(crate) fn send_write(
    slots: &mut [u32; 76],
    page: &mut [u8; 256],
    ram: &[u8],
    chip: Chip,
    new: u32,
) -> Chip
    ensures { flashed slots.new (chipped result page.new ram.now)
        ≡ send_written slots.old chip page.old ram.now new }
{
    registers::own_insert(slots, map::SPIFC_SEND, new);
    flash_xfer(page, ram, chip, memory::low(new))
}
