//! The share of one machine in a study.
//!
//! Several machines run the study of one plan, each a [`Share`] of the trials.

mod append;
mod batch;
mod env;
pub mod laws;
mod piece_task;
mod share;
mod share_pieces;
mod share_run;

pub use share::Share;
pub use share_run::ShareRun;
