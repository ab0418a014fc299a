// Why an entry is refused and why a command is declined, each reason with its number. Success is 0.
ghost use Rattle.std.specs.Prelude.{◌≡◌};
ghost use Rattle.layout.specs.Numbers.{refusal_number};
ghost use Rattle.layout.specs.Refusals.{decline_number};

// Why an entry is refused. Each has its one number.
#[derive(Clone, Copy, Debug, PartialEq, Eq)]
pub enum Refusal {
    WrongImage,
    Unfinished,
    UnknownCode,
    WrongLength,
    BadChecksum,
    WrongTable,
    BadSignature,
    WrongInputs,
    StoresLeft,
    ShortBuffer,
    NoStoreLeft,
    NotWellFormed,
    WrongRegister,
    AttestationOff,
    UnlistedKind,
    BadNumber,
    CutEntry,
    ShortEntry,
    Uncounted,
}

impl From<Refusal> for u32 {
    ghost from_gives = { λ r n. n ≡ refusal_number r };

    fn from(refusal: Refusal) -> u32 {
        match refusal {
            Refusal::WrongImage => 1,
            Refusal::Unfinished => 2,
            Refusal::UnknownCode => 3,
            Refusal::WrongLength => 4,
            // The letters BCHK.
            Refusal::BadChecksum => 0x4243484B,
            Refusal::WrongTable => 5,
            // The letters BSIG.
            Refusal::BadSignature => 0x42534947,
            Refusal::WrongInputs => 6,
            Refusal::StoresLeft => 7,
            Refusal::ShortBuffer => 8,
            Refusal::NoStoreLeft => 9,
            Refusal::NotWellFormed => 11,
            Refusal::WrongRegister => 12,
            Refusal::AttestationOff => 13,
            Refusal::UnlistedKind => 20,
            Refusal::BadNumber => 21,
            Refusal::CutEntry => 22,
            Refusal::ShortEntry => 23,
            Refusal::Uncounted => 24,
        }
    }
}

// Why a stash or a tree command is declined: its dpe result. 0 is accepted.
#[derive(Clone, Copy, Debug, PartialEq, Eq)]
pub enum Decline {
    Full,
    Off,
    NoHolder,
    Malformed,
    NoHandle,
    Caller,
    Fresh,
    Root,
    Children,
}

impl From<Decline> for u32 {
    ghost from_gives = { λ d n. n ≡ decline_number d };

    fn from(decline: Decline) -> u32 {
        match decline {
            Decline::Full => 1,
            Decline::Off => 2,
            Decline::NoHolder => 3,
            Decline::Malformed => 5,
            Decline::NoHandle => 6,
            Decline::Caller => 7,
            Decline::Fresh => 8,
            Decline::Root => 9,
            Decline::Children => 10,
        }
    }
}

// The dpe result of a stash or a tree command that is accepted.
pub const DPE_ACCEPTED: u32 = 0;
