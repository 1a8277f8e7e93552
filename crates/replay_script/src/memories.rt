// The four memories as a whole.
use lines::{Answer, Memories, answered, digest, refused};

// Byte i of a memory that a seed fills: the low byte of (31 * i + seed) / 8, to which only the lowest eleven bits of
// the sum count.
fn filler(seed: u32, i: usize) -> u8 {
    if seed == 0 {
        return 0;
    }
    ((i % 2048 * 31 + seed as usize) / 8 % 256) as u8
}

fn fill_one(memory: &mut [u8], seed: u32) {
    for (i, byte) in memory.iter_mut().enumerate() {
        *byte = filler(seed, i);
    }
}

pub(crate) fn fill(memories: &mut Memories, seed: u32) {
    fill_one(&mut memories.ram, seed);
    fill_one(&mut memories.sram, seed);
    fill_one(&mut memories.gpio, seed);
    fill_one(&mut memories.fb, seed);
}

pub(crate) fn run(memories: &mut Memories, script: &[u8], out: &mut [u8]) -> u32 {
    map::status(runner::loops::run_script(
        &mut memories.ram,
        &mut memories.sram,
        &mut memories.gpio,
        &mut memories.fb,
        script,
        out,
    ))
}

fn shown(memory: &[u8]) -> Answer {
    answered(digest(memory), memory.len() as u64, 0)
}

pub(crate) fn show(memories: &Memories, number: u32) -> Answer {
    match number {
        0 => shown(&memories.ram),
        1 => shown(&memories.sram),
        2 => shown(&memories.gpio),
        3 => shown(&memories.fb),
        _ => refused(1),
    }
}
