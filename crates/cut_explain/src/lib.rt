//! Explanations of plans: what is right or wrong with the text of a plan, in plain words.
//!
//! [`explain`] reads a text as a study does. For a refused text it lists every finding, with what is expected there;
//! for a plan, how large its study is. [`estimate_study`] runs a few trials of a plan, and estimates by a processor's
//! clock how long all of them take.
//!
//! That the first line is right is proved. The lines after it are help, which [`findings`] writes, and only the tests
//! say what they are.
#![tactic(auto)]

mod estimates;
mod explanations;
pub mod findings;

pub use estimates::{Estimate, estimate_study};
pub use explanations::{Explanation, explain};
