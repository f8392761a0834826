// The refusals of document 01, "When a call says no", and what a call answers: done, or the first
// of its refusals. Document 02 took the number 1 away and added 20.
#![tactic(auto)]

ghost use Rattle.std.specs.Prelude.{◌≡◌, [], ◌∷◌};
ghost use Rattle.answers.specs.Numbers as N;
ghost use Rattle.answers.specs.Numbers.{number_of};
ghost use Rattle.answers.specs.Checks.{first_refusal, room_check};

#[derive(Clone, Copy, PartialEq, Eq)]
pub enum Refusal {
    RecordTruncated,
    PointCount,
    PointsNotRising,
    UnknownKind,
    FieldMismatch,
    TrailingBytes,
    UnsupportedFormat,
    PictureTooLarge,
    MissingPlane,
    RowStep,
    PlaneTooShort,
    OutputTooSmall,
    TableLength,
    HeightRange,
}

// What a call answers that hands nothing back.
pub type Answer = Result<(), Refusal>;

impl Refusal {
    // The lengths that 14 allows a float table: either where it is built, the second where it is
    // looked up in.
    pub const TABLE_LENGTH: usize = 256;

    pub const FINE_TABLE_LENGTH: usize = 4096;

    // The paper's number. Stays: "The answer is the number", document 01; so it is in C.
    pub fn number(self) -> u8
        ensures { result ≡ N.refusal_number self }
    {
        match self {
            Refusal::RecordTruncated => 2,
            Refusal::PointCount => 3,
            Refusal::PointsNotRising => 4,
            Refusal::UnknownKind => 5,
            Refusal::FieldMismatch => 6,
            Refusal::TrailingBytes => 7,
            Refusal::UnsupportedFormat => 8,
            Refusal::PictureTooLarge => 9,
            Refusal::MissingPlane => 10,
            Refusal::RowStep => 11,
            Refusal::PlaneTooShort => 12,
            Refusal::OutputTooSmall => 13,
            Refusal::TableLength => 14,
            Refusal::HeightRange => 20,
        }
    }
}

// The number of an answer: 0 for done, else the refusal's. Stays a function: both `Result` and `u8`
// are of std, so there is no From.
pub fn number_of(answer: Answer) -> u8
    ensures { result ≡ number_of answer }
{
    match answer {
        Ok(()) => 0,
        Err(refusal) => refusal.number(),
    }
}

// 13, of an output of so many bytes that is to take count.
pub fn room_for(count: usize, held: usize) -> Answer
    ensures { result ≡ first_refusal (room_check count held ∷ []) }
{
    if held < count {
        return Err(Refusal::OutputTooSmall);
    }
    Ok(())
}
