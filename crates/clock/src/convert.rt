// The ADC: a conversion that is started has its result at the next advance.
ghost use Rattle.std.specs.Prelude.{◌≡◌};
ghost use Rattle.clock.specs.Adc.{fresh_adc, stored_of, written_of, converted_of, line_of};

use crate::Adc;

// The ADC as it is after a wipe.
pub fn fresh() -> Adc
    ensures { result ≡ fresh_adc }
{
    Adc {
        converting: false,
        control: 0,
        result: 0,
    }
}

fn stored(new: u32, old: u32) -> u32
    ensures { result ≡ stored_of new old }
{
    if (old & 0x8000 != 0) & (new & 0x8000 == 0) {
        return new & 0xFFFF_7F4F | old & 0x8080;
    }
    new & 0xFFFF_7F4F
}

pub fn adc_write_ctrl(adc: Adc, new: u32) -> Adc
    ensures { result ≡ written_of adc new }
{
    let old = adc.control;
    Adc {
        converting: adc.converting | (new & 0x4000 != 0) & (old & 0x4000 == 0),
        control: stored(new, old),
        result: adc.result,
    }
}

pub fn adc_advance(adc: Adc) -> Adc
    ensures { result ≡ converted_of adc }
{
    if adc.converting {
        return Adc {
            converting: false,
            control: adc.control | 0x8080,
            result: map::ADC_BATTERY,
        };
    }
    adc
}

pub fn adc_irq_line(control: u32) -> bool
    ensures { result ≡ line_of control }
{
    control & 0x8040 == 0x8040
}
