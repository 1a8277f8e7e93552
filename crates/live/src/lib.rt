// The bus live, for hosts: each operation on a unit that stays where the host keeps it. Crate live_c has the entries
// for C.
//
// A unit is twelve arrays, of which a call is lent those that it can touch, and four memories. Any contents are taken.
// host/live.c has these functions over structs, by the names of host/tg18.h; an array goes as its pointer, a slice as
// pointer and length. Scripts are no part of it: see crates script and chain.
#![tactic(auto)]

pub mod access;
pub mod buttons;
pub mod looks;
pub mod moments;
pub mod taker;
pub mod units;
