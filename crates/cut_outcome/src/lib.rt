//! What a trial's outcome is: its eight numbers, by definition, the sums over pieces of a study, and laws of both.
//!
//! A trial draws its roles, alerts every receiver in an order of its own, and judges what each receiver proposes:
//! against the processes that really failed, and against the others' proposals, as the leaderless fast round of the
//! Rapid paper counts them. Who only reads, keeps or prints sums needs this crate alone; `cut_trial` computes them.
#![tactic(auto)]

mod fast_round;
mod gate;
pub mod laws;
mod piece;
mod totals;
mod verdict;

pub use fast_round::quorum;
pub use gate::{Gate, OpenGate};
pub use piece::{Piece, PieceResult, is_piece};
pub use totals::Totals;
pub use verdict::Verdict;
