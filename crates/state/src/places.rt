// Where each scalar stands in the bank. specs/Bank.antt has the same places as numbers.

// ---- cells: the flash
pub(crate) const MODE: usize = 0;

pub(crate) const CS: usize = 1;

pub(crate) const WEL: usize = 2;

pub(crate) const WRITES: usize = 3;

pub(crate) const RX: usize = 4;

pub(crate) const CMD: usize = 5;

pub(crate) const A1: usize = 6;

pub(crate) const A2: usize = 7;

pub(crate) const A3: usize = 8;

pub(crate) const POS: usize = 9;

pub(crate) const LONG: usize = 10;

// ---- the panel: its command, four arguments and their count, the window, the pen
pub(crate) const ORDER: usize = 11;

pub(crate) const ARG0: usize = 12;

pub(crate) const ARG1: usize = 13;

pub(crate) const ARG2: usize = 14;

pub(crate) const ARG3: usize = 15;

pub(crate) const ARGS: usize = 16;

pub(crate) const X0: usize = 17;

pub(crate) const X1: usize = 18;

pub(crate) const Y0: usize = 19;

pub(crate) const Y1: usize = 20;

pub(crate) const X: usize = 21;

pub(crate) const Y: usize = 22;

pub(crate) const HALF: usize = 23;

pub(crate) const FRAMES: usize = 24;

// ---- the six timers
pub(crate) const SEEN: usize = 25;

pub(crate) const PENDING: usize = 31;

// ---- the clocks, the RTC chip, the power
pub(crate) const FIRED: usize = 37;

pub(crate) const DAY: usize = 38;

pub(crate) const VSYNC: usize = 39;

pub(crate) const CONVERTING: usize = 40;

pub(crate) const LATCHED: usize = 41;

pub(crate) const OUT: usize = 42;

pub(crate) const OFF: usize = 43;

// ---- the sound queue's ring, and the keys
pub(crate) const HEAD: usize = 44;

pub(crate) const WAITING: usize = 45;

pub(crate) const PRESSES: usize = 46;

pub(crate) const LIVE_A: usize = 47;

pub(crate) const LIVE_B: usize = 48;

pub(crate) const LIVE_C: usize = 49;

pub(crate) const APPLIED: usize = 50;

// ---- floats
pub(crate) const NOW: usize = 0;

pub(crate) const GAME: usize = 1;

pub(crate) const TURBO: usize = 2;

pub(crate) const START: usize = 3;

pub(crate) const DAY_SET: usize = 9;

pub(crate) const LATCHED_AT: usize = 10;

pub(crate) const FREQUENCY: usize = 11;

pub(crate) const DUTY: usize = 12;

pub(crate) const HOLD_A: usize = 13;

pub(crate) const HOLD_B: usize = 14;

pub(crate) const HOLD_C: usize = 15;
