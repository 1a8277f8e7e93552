// What a step asks for.

use lines::UnknownKind;

#[derive(Clone, Copy, Debug, PartialEq, Eq)]
pub enum Kind {
    Command,
    SendAll,
    Dma,
    Colours,
    ShowAll,
    Send,
    Show,
    Look,
    Put,
}

impl TryFrom<u64> for Kind {
    type Error = UnknownKind;

    fn try_from(kind: u64) -> Result<Kind, UnknownKind> {
        match kind {
            1 => Ok(Kind::Command),
            2 => Ok(Kind::SendAll),
            3 => Ok(Kind::Dma),
            4 => Ok(Kind::Colours),
            5 => Ok(Kind::ShowAll),
            6 => Ok(Kind::Send),
            7 => Ok(Kind::Show),
            11 => Ok(Kind::Look),
            12 => Ok(Kind::Put),
            _ => Err(UnknownKind(kind)),
        }
    }
}
