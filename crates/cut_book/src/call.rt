ghost use Rattle.std.specs.Prelude.{◌≡◌};
ghost use Rattle.cut_book.specs.Book.{returned};

use crate::BookFault;
use cut_ledger::Slip;

/// What a book answered to a result.
#[derive(Clone, Copy, Debug, PartialEq, Eq)]
pub enum Answer {
    /// It is taken.
    Accepted,
    /// It is of another plan.
    Stranger,
    /// A trial of it is held already.
    Overlap,
    /// It would be taken, but the disk failed in the append of its slip.
    DiskFails,
    /// The disk failed in an earlier append, and nothing is taken any more.
    Broken,
}

impl Answer {
    /// What the call for a result returns.
    pub fn into_result(self) -> Result<(), BookFault>
        ensures { result ≡ returned self }
    {
        match self {
            Answer::Accepted => Ok(()),
            Answer::Stranger => Err(BookFault::Stranger),
            Answer::Overlap => Err(BookFault::Overlap),
            Answer::DiskFails | Answer::Broken => Err(BookFault::Checkpoint),
        }
    }
}

/// A call of a book that changed its history, with the answer.
#[derive(Clone, Copy, Debug, PartialEq, Eq)]
pub enum Call {
    /// A result was handed in.
    HandIn {
        /// Its piece and its totals.
        slip: Slip,
        /// Whether it is of the book's plan.
        is_own: bool,
        /// What was answered.
        answer: Answer,
    },
    /// The piece of this number, counted from 0 in the division, was noted as lost.
    Lose {
        /// The number.
        piece: u64,
    },
    /// The line of a cell was asked for.
    Row {
        /// The cell.
        cell: u32,
        /// Whether a line was given: if not, the cell was not done.
        is_given: bool,
    },
}
