// What a step asks for. The last three are for tests only.

use lines::UnknownKind;

#[derive(Clone, Copy, Debug, PartialEq, Eq)]
pub enum Kind {
    Read,
    Write,
    Advance,
    Turbo,
    Take,
    Clock,
    Look,
    Put,
}

impl TryFrom<u64> for Kind {
    type Error = UnknownKind;

    fn try_from(kind: u64) -> Result<Kind, UnknownKind> {
        match kind {
            1 => Ok(Kind::Read),
            2 => Ok(Kind::Write),
            3 => Ok(Kind::Advance),
            6 => Ok(Kind::Turbo),
            9 => Ok(Kind::Take),
            10 => Ok(Kind::Clock),
            11 => Ok(Kind::Look),
            12 => Ok(Kind::Put),
            _ => Err(UnknownKind(kind)),
        }
    }
}
