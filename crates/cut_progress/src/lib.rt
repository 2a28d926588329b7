//! The progress of a study, printed line by line while it is run.
//!
//! A [`Progress`] is the gate of a study's workers: they report there which trials are held. [`report_while`] runs a study
//! and prints a [`ProgressLine`] on a wire meanwhile, at most once a second, and one at the end.
#![tactic(auto)]

mod counts;
mod progress;
mod progress_line;
mod report;
#[cfg(test)]
mod tests;

pub use progress::Progress;
pub use progress_line::{LineText, ProgressLine};
pub use report::report_while;
