// Calls that the four memories are lent to.
use lines::{Answer, Memories, answered, digest};
use map::Refusal;
use system::{System, access, moment};
use whole::limits::Bits;

pub(crate) fn write(
    m: &mut Memories,
    s: System,
    addr: u32,
    size: u32,
    value: u32,
) -> Result<System, Refusal> {
    access::write(
        s,
        &mut m.ram,
        &mut m.sram,
        &mut m.gpio,
        &mut m.fb,
        addr,
        size,
        value,
    )
}

pub(crate) fn advance(m: &mut Memories, s: System, to: Bits) -> Result<System, Refusal> {
    moment::advance(s, &m.sram, &mut m.gpio, to)
}

pub(crate) fn wipe(m: &mut Memories) -> System {
    system::wipe::wipe(&mut m.ram, &mut m.sram, &mut m.gpio, &mut m.fb)
}

// The lowest four bytes of the value, laid into plain memory.
pub(crate) fn poke(m: &mut Memories, addr: u32, value: u64) -> Answer {
    let bytes = value.to_le_bytes();
    block::poke(&mut m.ram, &mut m.sram, &mut m.gpio, addr, &bytes[..4]);
    answered(0, 0, 0)
}

pub(crate) fn digest_of(m: &Memories, number: u32) -> Answer {
    let digest = match number % 4 {
        0 => digest(&m.ram),
        1 => digest(&m.sram),
        2 => digest(&m.gpio),
        _ => digest(&m.fb),
    };
    answered(digest, 0, 0)
}
