// A unit's session written as bytes (W-201), over what live calls are lent. Crate session says what the bytes are, and
// crate saving_c has the entry for C.
#![tactic(auto)]

mod copies;
mod numbers;
mod others;
mod pressed;
mod runs;
mod sounds;
pub mod units;
mod writers;
