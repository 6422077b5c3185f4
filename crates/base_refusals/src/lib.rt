// The refusals of sets, steps and calls by name: R2.1 has their numbers, include/cxpi.h the same names.
#![tactic(auto)]

ghost use Rattle.std.specs.Prelude.{◌≡◌};
ghost use Rattle.base_refusals.specs.Numbers.{number, number_of, unless};

// Why a set, an event or a call is refused.
#[derive(Clone, Copy, PartialEq, Eq)]
pub enum Refusal {
    WrongSize,
    WrongCheck,
    WrongBlock,
    WrongRevision,
    WrongTime,
    WrongNode,
    WrongRow,
    NoRowOfNode,
    Filler,
    BufferShort,
    NoState,
    NoReqId,
    Damaged,
    WrongLength,
    NoEvent,
    NeedsNormal,
    NoResultDue,
    UnderWay,
    NotPermitted,
    NotHeld,
    NotAsked,
    RepliesShort,
    WrongRequest,
    NotSupported,
    NeverSleeps,
}

impl Refusal {
    pub fn number(self) -> u8
        ensures { result ≡ number self }
    {
        match self {
            Refusal::WrongSize => 1,
            Refusal::WrongCheck => 2,
            Refusal::WrongBlock => 3,
            Refusal::WrongRevision => 4,
            Refusal::WrongTime => 5,
            Refusal::WrongNode => 6,
            Refusal::WrongRow => 7,
            Refusal::NoRowOfNode => 8,
            Refusal::Filler => 9,
            Refusal::BufferShort => 10,
            Refusal::NoState => 11,
            Refusal::NoReqId => 12,
            Refusal::Damaged => 13,
            Refusal::WrongLength => 14,
            Refusal::NoEvent => 15,
            Refusal::NeedsNormal => 16,
            Refusal::NoResultDue => 17,
            Refusal::UnderWay => 18,
            Refusal::NotPermitted => 19,
            Refusal::NotHeld => 20,
            Refusal::NotAsked => 21,
            Refusal::RepliesShort => 22,
            Refusal::WrongRequest => 23,
            Refusal::NotSupported => 24,
            Refusal::NeverSleeps => 25,
        }
    }

    // The judgement of one rule: this refusal where it is broken.
    pub fn unless(self, kept: bool) -> Result<(), Refusal>
        ensures { result ≡ unless self kept }
    {
        if kept { Ok(()) } else { Err(self) }
    }
}

// The number of a judgement, 0 where nothing is refused: what a call for C returns.
pub fn number_of<T: Copy>(judged: Result<T, Refusal>) -> u8
    ensures { result ≡ number_of judged }
{
    match judged {
        Ok(_) => 0,
        Err(refusal) => refusal.number(),
    }
}
