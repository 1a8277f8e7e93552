// The entries for C of crate live: each function has its clauses again and calls it.
#![tactic(auto)]

pub mod access;
pub mod buttons;
pub mod looks;
pub mod moments;
pub mod taker;
pub mod units;
