// Where a register's word is kept: first the six timers' words, eight each, then these.
ghost use Rattle.std.specs.Prelude.{◌<◌, IfSome};

pub(crate) const WORDS: usize = 62;

pub(crate) const SECONDS: usize = 48;

pub(crate) const MINUTES: usize = 49;

pub(crate) const HOURS: usize = 50;

pub(crate) const TICK_STATUS: usize = 51;

pub(crate) const TICK_ENABLE: usize = 52;

pub(crate) const RTC_ADDRESS: usize = 53;

pub(crate) const RTC_DATA: usize = 54;

pub(crate) const RTC_COMMAND: usize = 55;

pub(crate) const RTC_READY: usize = 56;

pub(crate) const RTC_OUT: usize = 57;

pub(crate) const ADC_CONTROL: usize = 58;

pub(crate) const ADC_RESULT: usize = 59;

// These two have a place, and no address of theirs is given to a step.
pub(crate) const PANEL_STATUS: usize = 60;

pub(crate) const CLOCK: usize = 61;

fn named(at: u32) -> Option<usize>
    ensures { IfSome result (λ i. i < 62) }
{
    match at {
        map::RTC_SECONDS => Some(SECONDS),
        map::RTC_MINUTES => Some(MINUTES),
        map::RTC_HOURS => Some(HOURS),
        map::RTC_IRQ_STATUS => Some(TICK_STATUS),
        map::RTC_IRQ_ENABLE => Some(TICK_ENABLE),
        map::RTC_ADDRESS => Some(RTC_ADDRESS),
        map::RTC_DATA => Some(RTC_DATA),
        map::RTC_COMMAND => Some(RTC_COMMAND),
        map::RTC_READY => Some(RTC_READY),
        map::RTC_OUT => Some(RTC_OUT),
        map::ADC_CONTROL => Some(ADC_CONTROL),
        map::ADC_RESULT => Some(ADC_RESULT),
        _ => None,
    }
}

// An address that no device here has has none.
pub(crate) fn place(at: u32) -> Option<usize>
    ensures { IfSome result (λ i. i < 62) }
{
    if (map::TIMER_BASE..map::TIMER_END).contains(&at) && at % 4 == 0 {
        return Some((at % 0x1_0000 / 4) as usize % 48);
    }
    named(at)
}
