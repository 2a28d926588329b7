//! The faults of the program, and counts of a device's failed calls.
//!
//! Each crate has a fault type of its own. Each of its faults has a [`FaultCode`] here, so that numbers, names and exit
//! statuses are defined once.
#![tactic(auto)]

mod code;
mod failures;
pub mod laws;

pub use code::{FaultCode, name_of_number, status_of_number};
pub use failures::Failures;
