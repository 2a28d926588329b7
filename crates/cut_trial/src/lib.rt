//! Trials: what every receiver of a trial proposes, and how often it is wrong.
//!
//! A trial draws its roles, alerts every receiver in an order of its own, and judges what each
//! receiver proposes: against the processes that really failed, and against the others' proposals, as
//! the leaderless fast round of the Rapid paper counts them. `cut_outcome` says what the numbers are.
#![tactic(auto)]

mod alerts;
mod attempts;
mod ballot;
mod deliveries;
mod fault;
mod input;
mod piece;
mod piece_runner;
mod receiver_judge;
mod replays;
mod setup;
mod trial;
mod verdict_counts;
mod verdicts;

pub use attempts::twice;
pub use ballot::Ballot;
pub use cut_outcome::{Piece, PieceResult, Totals, Verdict, quorum};
pub use fault::TrialFault;
pub use piece::run_piece;
pub use piece_runner::PieceRunner;
pub use trial::run_trial;
pub use verdicts::verdict;
