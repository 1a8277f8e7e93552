// Why a call is refused, and what 01 calls it in numbers, which is what hosts and scripts see.
ghost use Rattle.std.specs.Prelude.{◌≡◌};
ghost use Rattle.map.specs.Refusals.{code_of, number_of};

#[derive(Clone, Copy, Debug, PartialEq, Eq)]
pub enum Refusal {
    BadTime,
    BadTurbo,
    KeysFull,
    RegistersFull,
    SoundFull,
    StrayWrite,
    BadMemory,
    BadKey,
    BadSize,
    BadScript,
    OutTooShort,
    NoEvent,
    NoNextTime,
    BadSave,
    SaveTooShort,
}

impl From<Refusal> for u8 {
    ghost from_gives = { λ r n. n ≡ code_of r };

    fn from(refusal: Refusal) -> u8 {
        match refusal {
            Refusal::BadTime => crate::BAD_TIME,
            Refusal::BadTurbo => crate::BAD_TURBO,
            Refusal::KeysFull => crate::KEYS_FULL,
            Refusal::RegistersFull => crate::REGISTERS_FULL,
            Refusal::SoundFull => crate::SOUND_FULL,
            Refusal::StrayWrite => crate::STRAY_WRITE,
            Refusal::BadMemory => crate::BAD_MEMORY,
            Refusal::BadKey => crate::BAD_KEY,
            Refusal::BadSize => crate::BAD_SIZE,
            Refusal::BadScript => crate::BAD_SCRIPT,
            Refusal::OutTooShort => crate::OUT_TOO_SHORT,
            Refusal::NoEvent => crate::NO_EVENT,
            Refusal::NoNextTime => crate::NO_NEXT_TIME,
            Refusal::BadSave => crate::BAD_SAVE,
            Refusal::SaveTooShort => crate::SAVE_TOO_SHORT,
        }
    }
}

// 01's number of what a call answers: 0 where it is done.
pub fn number<T: Drop>(answer: Result<T, Refusal>) -> u8
    ensures { result ≡ number_of answer }
{
    match answer {
        Ok(_) => crate::DONE,
        Err(refusal) => u8::from(refusal),
    }
}

// The same, as hosts get it.
pub fn status<T: Drop>(answer: Result<T, Refusal>) -> u32
    ensures { result ≡ number_of answer }
{
    u32::from(number(answer))
}
