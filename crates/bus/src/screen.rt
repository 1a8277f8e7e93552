// The panel behind its control word: lcd_write_ctrl and lcd_dma.
ghost use Rattle.std.specs.Prelude.{◌≡◌};
ghost use Rattle.registers.specs.Words.{registers_of};
ghost use Rattle.panel.specs.Entries.{screen};
ghost use Rattle.panel.specs.Runs.{byte, screen_after_input};
ghost use Rattle.state.specs.Bank.{panel_in};
ghost use Rattle.bus.specs.Inner.{OnlyPanel};
ghost use Rattle.bus.specs.Screen.{fed_word, copied, dma_done, act_result, controlled};

use block::Seen;
use state::Cells;

// A data byte. One of a pixel, the most frequent, moves the pen alone, and so no more is put.
fn lcd_data(cells: &mut Cells, fb: &mut [u8], b: u8)
    ensures { (screen (panel_in cells.new) fb.new
        ≡ screen_after_input (screen (panel_in cells.old) fb.old) (byte b))
        × OnlyPanel cells.old cells.new }
{
    let order = state::panels::order_of(cells);
    if panel::args::code(order) == 0x2C {
        let window = state::panels::window_of(cells);
        let pen = state::panels::pen_of(cells);
        let next = panel::draw::paint(window, pen, fb, b);
        state::panels::put_pen(cells, next);
        return;
    }
    let p = state::panels::panel_of(cells);
    let next = panel::args::argument(p, b);
    state::panels::put_panel(cells, next);
}

// A word's one data byte or two, the high one first.
fn feed(cells: &mut Cells, fb: &mut [u8], one: bool, word: u32)
    ensures { (screen (panel_in cells.new) fb.new
        ≡ fed_word (screen (panel_in cells.old) fb.old) one word)
        × OnlyPanel cells.old cells.new }
{
    if one {
        lcd_data(cells, fb, memory::low(word));
        return;
    }
    lcd_data(cells, fb, memory::low(word / 256));
    lcd_data(cells, fb, memory::low(word));
}

// A whole frame from the address that was set, if one was.
fn lcd_dma(
    slots: &mut [u32; 76],
    addresses: &[u32; 256],
    values: &[u32; 256],
    cells: &mut Cells,
    ram: &[u8],
    sram: &[u8],
    gpio: &[u8],
    fb: &mut [u8],
)
    ensures { (copied slots.new (screen (panel_in cells.new) fb.new)
        ≡ dma_done (registers_of slots.old addresses.now values.now) ram.now
        sram.now gpio.now
        (screen (panel_in cells.old) fb.old))
        × OnlyPanel cells.old cells.new }
{
    let addr = registers::own_reg(slots, map::LCD_DMA);
    if addr == 0 {
        return;
    }
    let seen = Seen {
        slots: &*slots,
        addresses,
        values,
        ram,
        sram,
        gpio,
    };
    seen.read_block(addr, fb);
    let status = registers::own_reg(slots, map::LCD_STATUS);
    registers::own_insert(slots, map::LCD_STATUS, status | 0x40);
    let p = state::panels::panel_of(cells);
    let next = panel::lcd::count_frame(p);
    state::panels::put_panel(cells, next);
}

// What a control word with bit 0 set asks for.
fn act(
    slots: &mut [u32; 76],
    addresses: &[u32; 256],
    values: &[u32; 256],
    cells: &mut Cells,
    ram: &[u8],
    sram: &[u8],
    gpio: &[u8],
    fb: &mut [u8],
    val: u32,
)
    ensures { (copied slots.new (screen (panel_in cells.new) fb.new)
        ≡ act_result (registers_of slots.old addresses.now values.now) ram.now
        sram.now gpio.now
        (screen (panel_in cells.old) fb.old) val)
        × OnlyPanel cells.old cells.new }
{
    let word = registers::own_reg(slots, map::LCD_DATA);
    let asked = val & 0xF0;
    match asked {
        0x80 => {
            let p = state::panels::panel_of(cells);
            let next = panel::lcd::command(p, memory::low(word));
            state::panels::put_panel(cells, next);
            return;
        }
        0xA0 => {
            feed(cells, fb, val & 0x2000 != 0, word);
            return;
        }
        0xD0 => {
            lcd_dma(slots, addresses, values, cells, ram, sram, gpio, fb);
            return;
        }
        _ => {
            return;
        }
    }
}

// The control word is stored, acts if bit 0 is set, and then loses that bit.
pub(crate) fn lcd_write_ctrl(
    slots: &mut [u32; 76],
    addresses: &[u32; 256],
    values: &[u32; 256],
    cells: &mut Cells,
    ram: &[u8],
    sram: &[u8],
    gpio: &[u8],
    fb: &mut [u8],
    val: u32,
)
    ensures { (copied slots.new (screen (panel_in cells.new) fb.new)
        ≡ controlled (registers_of slots.old addresses.now values.now)
        ram.now
        sram.now gpio.now
        (screen (panel_in cells.old) fb.old) val)
        × OnlyPanel cells.old cells.new }
{
    registers::own_insert(slots, map::LCD_CONTROL, val);
    if val & 1 == 0 {
        return;
    }
    act(slots, addresses, values, cells, ram, sram, gpio, fb, val);
    registers::own_insert(slots, map::LCD_CONTROL, val & 0xFFFF_FFFE);
}
