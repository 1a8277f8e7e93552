// Interrupts: irq_lines, pending_irq, irq_wanted.
ghost use Rattle.std.specs.Prelude.{◌≡◌, List, Float};
ghost use Rattle.state.specs.Bank.{timers_in};
ghost use Rattle.time.specs.Irq.{timer_line, lcd_line, rtc_line, adc_line, first_of, pending_of, wanted_of};

use state::Cells;
use state::moments::pending_of;
use whole::forms::choose;

pub(crate) fn timer_irq_line(cells: &Cells) -> bool
    ensures { (f : List Float) → result ≡ timer_line (timers_in cells.now f) }
{
    let mut pending = false;
    for n in 0..map::TIMER_COUNT {
        pending = pending | pending_of(cells, n);
    }
    pending
}

fn rtc_irq_line(slots: &[u32; 76]) -> bool
    ensures { result ≡ rtc_line slots.now }
{
    let status = registers::own_reg(slots, map::RTC_IRQ_STATUS);
    clock::sources::rtc_irq_line(status, registers::own_reg(slots, map::RTC_IRQ_ENABLE))
}

fn lcd_irq_line(slots: &[u32; 76]) -> bool
    ensures { result ≡ lcd_line slots.now }
{
    let status = registers::own_reg(slots, map::LCD_STATUS);
    status & registers::own_reg(slots, map::LCD_ENABLE) != 0
}

fn adc_irq_line(slots: &[u32; 76]) -> bool
    ensures { result ≡ adc_line slots.now }
{
    clock::convert::adc_irq_line(registers::own_reg(slots, map::ADC_CONTROL))
}

// The number of the first line that is raised and not masked, or 0. Line n is masked by bit 32 - n.
fn first(mask: u32, rtc: bool, timer: bool, lcd: bool, adc: bool) -> u32
    ensures { result ≡ first_of mask rtc timer lcd adc }
{
    let last = choose(adc & (mask / 0x8 % 2 == 0), map::ADC_IRQ, 0);
    let third = choose(lcd & (mask / 0x20 % 2 == 0), map::LCD_IRQ, last);
    let second = choose(timer & (mask / 0x100_0000 % 2 == 0), map::TIMER_IRQ, third);
    choose(rtc & (mask / 0x8000_0000 % 2 == 0), map::RTC_IRQ, second)
}

pub fn pending_irq(slots: &[u32; 76], cells: &Cells) -> u32
    ensures { (f : List Float) → result ≡ pending_of slots.now (timers_in cells.now f) }
{
    let mask = registers::own_reg(slots, map::INTC_MASK);
    let rtc = rtc_irq_line(slots);
    let timer = timer_irq_line(cells);
    let lcd = lcd_irq_line(slots);
    let adc = adc_irq_line(slots);
    first(mask, rtc, timer, lcd, adc)
}

pub fn irq_wanted(slots: &[u32; 76], cells: &Cells) -> bool
    ensures { (f : List Float) → result ≡ wanted_of slots.now (timers_in cells.now f) }
{
    let off = registers::own_reg(slots, map::INTC_DISABLE);
    (off & 1 == 0) & (pending_irq(slots, cells) != 0)
}
