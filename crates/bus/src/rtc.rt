// The RTC chip behind its command word.
ghost use Rattle.std.specs.Prelude.{◌≡◌};
ghost use Rattle.clock.specs.Rtc.{rtc_of};
ghost use Rattle.bus.specs.Rtc.{rtc_done, command_written};

use clock::Latch;

pub(crate) fn command_write(
    slots: &mut [u32; 76],
    regs: &mut [u8; 256],
    latch: Latch,
    game: f64,
    new: u32,
) -> Latch
    ensures { rtc_done slots.new (rtc_of regs.new result) ≡ command_written slots.old
        (rtc_of regs.old latch) game new }
{
    registers::own_insert(slots, map::RTC_COMMAND, new);
    let address = registers::own_reg(slots, map::RTC_ADDRESS);
    let word = registers::own_reg(slots, map::RTC_DATA);
    clock::chip::rtc_command(regs, latch, game, address, word, new)
}
