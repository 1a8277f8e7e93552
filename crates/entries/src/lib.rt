// One entry of a script, a press or a step: what it does to the machine, and what it answers. 01, Scripts.
#![tactic(auto)]

pub mod act;
pub mod replies;

// A press or a step. A press has kind 0; its key is the address, the bits of its time the value.
#[derive(Drop)]
pub struct Entry {
    pub kind: u32,
    pub size: u32,
    pub address: u32,
    pub value: u64,
}

// 01's number, and three numbers; those that an entry does not answer are 0.
#[derive(Drop)]
pub struct Answer {
    pub refusal: u8,
    pub a: u64,
    pub b: u64,
    pub c: u64,
}
