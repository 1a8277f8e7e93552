// What a step asks for.

use lines::UnknownKind;

#[derive(Clone, Copy, Debug, PartialEq, Eq)]
pub enum Kind {
    Lay,
    Put,
    Fill,
    Run,
    Answer,
    Show,
}

impl TryFrom<u64> for Kind {
    type Error = UnknownKind;

    fn try_from(kind: u64) -> Result<Kind, UnknownKind> {
        match kind {
            0xC0 => Ok(Kind::Lay),
            0xC1 => Ok(Kind::Put),
            0xC2 => Ok(Kind::Fill),
            0xC3 => Ok(Kind::Run),
            0xC4 => Ok(Kind::Answer),
            0xC5 => Ok(Kind::Show),
            _ => Err(UnknownKind(kind)),
        }
    }
}
