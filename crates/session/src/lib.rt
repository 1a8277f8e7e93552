// A unit's session as bytes (W-201): what it is, in specs/, and what its writer and its reader share. Crate saving
// writes one, crate resuming judges and reads it, and crate keeping has the theorems.
//
// The bytes are sections in a fixed order, each after its count; docs/SESSIONS.md has them.
#![tactic(auto)]

pub mod places;
