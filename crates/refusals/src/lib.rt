// The refusals of documents 01 and 02 and their numbers. The functions are for the crates above, not for users.
#![tactic(auto)]

ghost use Rattle.std.specs.Prelude.{◌≡◌};
ghost use Rattle.refusals.specs.Refusals.{number_of, check_number, row_or};

// Document 01's refusals, then those of document 02; the number of each is `number_of` of specs/Refusals.antt.
#[derive(Clone, Copy, Debug, PartialEq, Eq)]
pub enum Refusal {
    Configuration,
    OverDomain,
    BadQuote,
    OffTick,
    EarlierTime,
    CountLimit,
    SliceLength,
    LastQuoteBroken,
    TotalsUnmirrored,
    CellsUnmirrored,
    CellsNotTwicePairs,
    ImageLayout,
    // With the row's index.
    ModelRow(usize),
    RecordingUnsorted,
    WindowBackward,
    NoCalibratedState,
    SingularTransitions,
    NotConverged,
    Unrepresentable,
    // Document 02, Q-10.
    RoundsOutOfRange,
}

impl Refusal {
    // The number of a refusal. No `From`: the number leaves the row of 13 out.
    pub fn number(self) -> u64
        ensures { result ≡ number_of self }
    {
        match self {
            Refusal::Configuration => 1,
            Refusal::OverDomain => 2,
            Refusal::BadQuote => 3,
            Refusal::OffTick => 4,
            Refusal::EarlierTime => 5,
            Refusal::CountLimit => 6,
            Refusal::SliceLength => 7,
            Refusal::LastQuoteBroken => 8,
            Refusal::TotalsUnmirrored => 9,
            Refusal::CellsUnmirrored => 10,
            Refusal::CellsNotTwicePairs => 11,
            Refusal::ImageLayout => 12,
            Refusal::ModelRow(_) => 13,
            Refusal::RecordingUnsorted => 14,
            Refusal::WindowBackward => 15,
            Refusal::NoCalibratedState => 16,
            Refusal::SingularTransitions => 17,
            Refusal::NotConverged => 18,
            Refusal::Unrepresentable => 19,
            Refusal::RoundsOutOfRange => 26,
        }
    }

    // The row that 13 names; of any other refusal, the row given.
    pub fn row_or(self, row: u64) -> u64
        ensures { result ≡ row_or self row }
    {
        let Refusal::ModelRow(i) = self else {
            return row;
        };
        i as u64
    }
}

// 0 if nothing is refused, else the refusal's number. No `From`: neither `Result` nor `u64` is of this crate.
pub fn check_number(checked: Result<(), Refusal>) -> u64
    ensures { result ≡ check_number checked }
{
    match checked {
        Ok(()) => 0,
        Err(refusal) => refusal.number(),
    }
}
