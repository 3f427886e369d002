// The answers to steps, and why one is refused, as values (document 01, "Steps and answers"). Their text is in `answer`.
#![tactic(auto)]

ghost use Rattle.std.specs.Prelude.{◌≡◌};
ghost use Rattle.machine.specs.Answer.{number_of};
ghost use Rattle.reply.specs.Meaning.{refusal_of};

// Why a line or a call is refused.
#[derive(Clone, Copy, Debug, PartialEq, Eq)]
pub enum Refusal {
    NoDesk,
    NoCell,
    NoStatus,
    Spent,
    Full,
    OwnWrite,
    NoWrite,
    Received,
    TripSize,
    NoStep,
    NoSize,
    Damaged,
    Broken,
    Short,
    WrongLength,
}

// The number of a refusal.
impl From<Refusal> for u16 {
    ghost from_gives = { λ r n. n ≡ number_of (refusal_of r) };

    fn from(r: Refusal) -> u16 {
        match r {
            Refusal::NoDesk => 1,
            Refusal::NoCell => 2,
            Refusal::NoStatus => 3,
            Refusal::Spent => 4,
            Refusal::Full => 5,
            Refusal::OwnWrite => 6,
            Refusal::NoWrite => 7,
            Refusal::Received => 8,
            Refusal::TripSize => 9,
            Refusal::NoStep => 10,
            Refusal::NoSize => 11,
            Refusal::Damaged => 12,
            Refusal::Broken => 13,
            Refusal::Short => 14,
            Refusal::WrongLength => 15,
        }
    }
}

// The name of a write, u.k: its writer and its number there.
#[derive(Clone, Copy, Debug, PartialEq, Eq)]
pub struct Name {
    pub writer: u16,
    pub number: u16,
}

// The most names that an answer lists: as many as writes can be open.
pub const APPLIED: usize = 64;

// The answer to a line. Applied holds how many names there are: they stand in an array beside it.
#[derive(Clone, Copy, Debug, PartialEq, Eq)]
pub enum Answer {
    Begun,
    Unset,
    Shown(u16, Name),
    Wrote(Name),
    Held(Name),
    Applied(usize),
    Yes,
    No,
    Unknown,
    // Kept: a refusal is an answer too, line E, and `answer_of` has it.
    Refused(Refusal),
}
