//! A hall in which many threads work on many studies.
//!
//! A [`Hall`] has slots for the books of studies. Threads come to it with a [`Pass`] each: they submit plans, work on
//! the pieces of all studies, and wait for the lines of one. Pieces are drawn and trials counted on a board, without a
//! lock; a book is asked under the lock of its slot. A thread that holds the lock of a slot may take the lock of the
//! accounts while it counts one call, never the other way round. What is done under a lock is in `cut_slots`.
//!
//! Two ledgers count the calls of all books: in the one each pass has a share, in the other each slot. Their sums are
//! equal, so that when the hall is closed all histories together are as long as what the passes made; and for each slot
//! the trials that were counted on the board are compared with those that its history accepted.
#![tactic(auto)]

mod close;
mod hall;
mod locked_accounts;
mod work;
mod work_env;

pub use close::ClosedStudy;
pub use cut_outcome::{Gate, OpenGate};
pub use cut_slots::{
    Blanks, CallLedger, Mismatch, NextRowFault, NotClosed, Pass, Report, SlotReport,
};
pub use hall::Hall;
pub use work::StudyCell;
pub use work_env::WorkEnv;
