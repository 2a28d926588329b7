//! Laws of cut detection that hold in every trial, whatever is drawn: what a user can know of K, H and L before any
//! study. The crate has no code that does anything: the contract of each function is a law.
#![tactic(auto)]

pub mod columns;
pub mod conflicts;
pub mod crashes;
pub mod ends;
pub mod equal_watermarks;
pub mod lines;
pub mod one_crash;
pub mod other_watermarks;
pub mod reports;
