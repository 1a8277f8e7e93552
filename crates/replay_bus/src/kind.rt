// What a step asks for.

use lines::UnknownKind;

#[derive(Clone, Copy, Debug, PartialEq, Eq)]
pub enum Kind {
    Read { size: u32 },
    Write { size: u32 },
    Advance,
    NextEvent,
    PendingIrq,
    Turbo,
    SetLive,
    Hold,
    Take,
    Counters,
    Colours,
    Wipe,
    Press,
    Peek8,
    Peek32,
    Poke,
    KeysHeld,
    IrqWanted,
    Block,
    Digest,
}

impl TryFrom<u64> for Kind {
    type Error = UnknownKind;

    fn try_from(kind: u64) -> Result<Kind, UnknownKind> {
        let size = (kind % 16) as u32;
        match kind {
            0x10..=0x1F => Ok(Kind::Read { size }),
            0x20..=0x2F => Ok(Kind::Write { size }),
            0x30 => Ok(Kind::Advance),
            0x40 => Ok(Kind::NextEvent),
            0x50 => Ok(Kind::PendingIrq),
            0x60 => Ok(Kind::Turbo),
            0x70 => Ok(Kind::SetLive),
            0x80 => Ok(Kind::Hold),
            0x90 => Ok(Kind::Take),
            0xA0 => Ok(Kind::Counters),
            0xB0 => Ok(Kind::Colours),
            0xC0 => Ok(Kind::Wipe),
            0xD0 => Ok(Kind::Press),
            0xE0 => Ok(Kind::Peek8),
            0xE1 => Ok(Kind::Peek32),
            0xE2 => Ok(Kind::Poke),
            0xE3 => Ok(Kind::KeysHeld),
            0xE4 => Ok(Kind::IrqWanted),
            0xE5 => Ok(Kind::Block),
            0xE6 => Ok(Kind::Digest),
            _ => Err(UnknownKind(kind)),
        }
    }
}
