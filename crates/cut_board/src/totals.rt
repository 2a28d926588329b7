//! What was drawn and counted over all seats.
use cut_lists::Items;

/// What was drawn and counted of a study.
#[derive(Clone, Copy, Debug, PartialEq, Eq)]
pub struct StudyTotals {
    /// How many numbers were drawn: those below it, each once.
    pub draws: u64,
    /// The sum of what was counted.
    pub count: u64,
}

/// What was drawn and counted, study by study. Contracts see it as the list.
pub type BoardTotals = Items<StudyTotals>;
