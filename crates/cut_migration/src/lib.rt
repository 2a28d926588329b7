//! The slips of a study of version 1 in the journal of its plan's upgrade.
//!
//! [`migrate`] runs the trials of each slip again for the upgrade, and keeps the result where the numbers that both
//! versions report are those of the slip. It is how a checkpoint of version 1 goes on as one of version 2.
#![tactic(auto)]

mod migration;

pub use migration::migrate;
