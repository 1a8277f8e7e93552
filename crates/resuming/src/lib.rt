// A unit's session read back (W-201), over what live calls are lent. Crate session says what the bytes are, and crate
// resuming_c has the entry for C.
//
// The bytes are judged first, by themselves; what is then read cannot fail. So a refusal changes nothing.
#![tactic(auto)]

mod copies;
mod counts;
mod judge;
mod numbers;
mod others;
mod places;
mod pressed;
mod readers;
mod runs;
mod sounds;
pub mod units;
