// The numbers that 01 and the Rust name: addresses, sizes, refusals, kinds. They have the names of core/src/sys.rs and
// core/src/lib.rs; where those give a register no name, it has that of its device and what the word does.
//
// They stand here for the code, and in specs/Numbers.antt for the definitions. `.ci/numbers` compares the two lists,
// and with them the numbers of the C header, of the desk and of the oracle. It reads a line each, which ends in a
// number, in another name, or in names and numbers with + between them.

#![tactic(auto)]

pub mod refusals;

pub use refusals::{Refusal, number, status};

// ---- memories, and the screen that the framebuffer holds

pub const FLASH_BASE: u32 = 0x2000_0000;

pub const FLASH_SIZE: usize = 0x80_0000;

pub const RAM_SIZE: usize = 0x100_0000;

pub const SRAM_BASE: u32 = 0xF800_0000;

pub const SRAM_SIZE: usize = 0x10_0000;

pub const SRAM_END: u32 = 0xF810_0000;

pub const GPIO_BASE: u32 = 0xC000_0000;

pub const GPIO_SIZE: usize = 0x1000;

pub const GPIO_END: u32 = 0xC000_1000;

pub const REGISTERS_END: u32 = 0xFFFF_F000;

pub const FRAMEBUFFER_SIZE: usize = 0x8000;

pub const PIXELS: usize = 0x4000;

pub const SCREEN_BYTES: usize = 0xC000;

pub const LCD_W: usize = 128;

pub const LCD_H: usize = 128;

pub const SYSCLK_VAR: u32 = 0xF800_90A4;

pub const SYSCLK_AT: usize = 0x90A4;

// ---- registers: the timers, of which the buzzer follows one

pub const TIMER_BASE: u32 = 0xC002_0000;

pub const TIMER_END: u32 = TIMER_BASE + 0xC0;

pub const TIMER_STEP: u32 = 0x20;

pub const TIMER_RELOAD: u32 = TIMER_BASE + 0x08;

pub const TIMER_COUNT: usize = 6;

pub const SOUND_TIMER: usize = 4;

pub const SOUND_CONTROL: u32 = TIMER_BASE + 0x80;

pub const SOUND_RELOAD: u32 = TIMER_BASE + 0x88;

pub const SOUND_COMPARE: u32 = TIMER_BASE + 0x8C;

// ---- the time of day and the 1 Hz tick

pub const RTC_IRQ_BASE: u32 = 0xC004_0000;

pub const RTC_SECONDS: u32 = RTC_IRQ_BASE;

pub const RTC_MINUTES: u32 = RTC_IRQ_BASE + 0x04;

pub const RTC_HOURS: u32 = RTC_IRQ_BASE + 0x08;

pub const RTC_IRQ_STATUS: u32 = RTC_IRQ_BASE + 0x54;

pub const RTC_IRQ_ENABLE: u32 = RTC_IRQ_BASE + 0x58;

pub const RTC_TICK_BIT: u32 = 0x2;

// ---- the second SPI, the RTC chip's bus, the ADC, the flash's controller

pub const SPI2_BASE: u32 = 0xC008_0000;

pub const SPI2_SEND: u32 = SPI2_BASE + 0x08;

pub const SPI2_STATUS: u32 = SPI2_BASE + 0x0C;

pub const SPI2_ANSWER: u32 = SPI2_BASE + 0x10;

pub const SPI2_IDLE: u32 = 0x00;

pub const RTC_BUS: u32 = 0xC009_0000;

pub const RTC_ADDRESS: u32 = RTC_BUS + 0x04;

pub const RTC_DATA: u32 = RTC_BUS + 0x08;

pub const RTC_COMMAND: u32 = RTC_BUS + 0x0C;

pub const RTC_READY: u32 = RTC_BUS + 0x10;

pub const RTC_OUT: u32 = RTC_BUS + 0x14;

pub const ADC_BASE: u32 = 0xC00C_0000;

pub const ADC_CONTROL: u32 = ADC_BASE + 0x04;

pub const ADC_RESULT: u32 = ADC_BASE + 0x08;

pub const ADC_BATTERY: u32 = 0xC000;

pub const SPIFC_BASE: u32 = 0xC015_0000;

pub const SPIFC_SELECT: u32 = SPIFC_BASE;

pub const SPIFC_STATUS: u32 = SPIFC_BASE + 0x04;

pub const SPIFC_SEND: u32 = SPIFC_BASE + 0x08;

pub const SPIFC_ANSWER: u32 = SPIFC_BASE + 0x0C;

// ---- clock, power, interrupts, the panel

pub const CLOCK_SWITCH: u32 = 0xD000_001C;

pub const CLOCK_STATUS: u32 = 0xD000_003C;

pub const POWER_REG: u32 = 0xD000_0078;

pub const INTC_PENDING: u32 = 0xD010_0028;

pub const INTC_PENDING_FIQ: u32 = 0xD010_002C;

pub const INTC_MASK: u32 = 0xD010_0030;

pub const INTC_DISABLE: u32 = 0xD010_0038;

pub const LCD_BASE: u32 = 0xD050_0000;

pub const LCD_CONTROL: u32 = LCD_BASE + 0x140;

pub const LCD_DATA: u32 = LCD_BASE + 0x16C;

pub const LCD_ENABLE: u32 = LCD_BASE + 0x188;

pub const LCD_STATUS: u32 = LCD_BASE + 0x18C;

pub const LCD_DMA: u32 = LCD_BASE + 0x33C;

// ---- the interrupt controller's lines, in the order in which they come

pub const RTC_IRQ: u32 = 1;

pub const TIMER_IRQ: u32 = 8;

pub const LCD_IRQ: u32 = 27;

pub const ADC_IRQ: u32 = 29;

// ---- refusals

pub const DONE: u8 = 0;

pub const BAD_TIME: u8 = 1;

pub const BAD_TURBO: u8 = 2;

pub const KEYS_FULL: u8 = 3;

pub const REGISTERS_FULL: u8 = 4;

pub const SOUND_FULL: u8 = 5;

pub const STRAY_WRITE: u8 = 6;

pub const BAD_MEMORY: u8 = 7;

pub const BAD_KEY: u8 = 8;

pub const BAD_SIZE: u8 = 9;

pub const BAD_SCRIPT: u8 = 10;

pub const OUT_TOO_SHORT: u8 = 11;

pub const NO_EVENT: u8 = 12;

pub const NO_NEXT_TIME: u8 = 13;

pub const BAD_SAVE: u8 = 14;

pub const SAVE_TOO_SHORT: u8 = 15;

// ---- scripts: the greatest counts, and the bytes of what stands in them and in their answers

pub const MOST_PRESSES: usize = 4096;

pub const MOST_STEPS: usize = 4096;

pub const PRESS_BYTES: usize = 9;

pub const STEP_BYTES: usize = 16;

pub const ANSWER_BYTES: usize = 25;

// ---- the kinds of what stands in scripts; a press has no byte for its kind

pub const PRESS: u8 = 0;

pub const READ: u8 = 1;

pub const WRITE: u8 = 2;

pub const ADVANCE: u8 = 3;

pub const NEXT: u8 = 4;

pub const PENDING: u8 = 5;

pub const TURBO: u8 = 6;

pub const KEY: u8 = 7;

pub const HOLD: u8 = 8;

pub const SOUND: u8 = 9;

pub const COUNTERS: u8 = 10;

pub const COLOUR: u8 = 11;

pub const WIPE: u8 = 12;
