// The runner of scripts: presses and steps over lent memories of any length, from where the state stands or from the
// fresh state. 01, Scripts.
#![tactic(auto)]

mod format;
pub mod loops;
