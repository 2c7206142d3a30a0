// Why a call is refused, each reason with its answer number.
#![tactic(auto)]

ghost use Rattle.std.specs.Prelude.{◌≡◌};
ghost use Rattle.refusals.specs.Numbers.{number_of, answer_of};

// The reasons, by the names that the C header gives their numbers. (10 is served.)
#[derive(Clone, Copy, Debug, PartialEq, Eq)]
pub enum Refusal {
    NotSound,
    SmallRoom,
    OtherAddress,
    WrongForm,
    WrongPec,
    ReservedCommand,
    CommandNotBuilt,
    ReadOnly,
    BadSheet,
    BadSetUp,
    NoFit,
    NotAKey,
    NotACapture,
    WrongLength,
    TooManyRows,
    BadRow,
    BadTag,
    LongBody,
    LongSheet,
}

impl From<Refusal> for u8 {
    ghost from_gives = { λ reason number. number ≡ number_of reason };

    fn from(reason: Refusal) -> u8 {
        match reason {
            Refusal::NotSound => 1,
            Refusal::SmallRoom => 2,
            Refusal::OtherAddress => 3,
            Refusal::WrongForm => 4,
            Refusal::WrongPec => 5,
            Refusal::ReservedCommand => 6,
            Refusal::CommandNotBuilt => 7,
            Refusal::ReadOnly => 8,
            Refusal::BadSheet => 9,
            Refusal::BadSetUp => 11,
            Refusal::NoFit => 12,
            Refusal::NotAKey => 13,
            Refusal::NotACapture => 14,
            Refusal::WrongLength => 15,
            Refusal::TooManyRows => 16,
            Refusal::BadRow => 17,
            Refusal::BadTag => 18,
            Refusal::LongBody => 19,
            Refusal::LongSheet => 20,
        }
    }
}

// The answer number of an outcome: 0, or the refusal's.
pub fn answer<T>(outcome: &Result<T, Refusal>) -> u8
    ensures { result ≡ answer_of outcome.now }
{
    match outcome {
        Ok(_) => 0,
        Err(reason) => u8::from(*reason),
    }
}
