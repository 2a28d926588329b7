//! The ledger of a study: which trials are held, and the sums over them.
//!
//! A ledger begins with slips, which an earlier run of the study left, and takes the results of pieces, in any order.
//! Each trial is counted once at most. A `Run` is a study with its ledger and one wire at a time, as a state machine;
//! [`laws`] say what every run keeps.
#![tactic(auto)]

mod available;
mod base;
mod bytes;
mod division;
mod event;
mod held_trials;
pub mod laws;
mod ledger;
pub mod lines;
mod offer_fault;
mod possible;
mod run;
mod slip;
mod slips_fault;
mod tally;

pub use base::Base;
pub use bytes::Bytes;
pub use division::Division;
pub use event::{Event, Reply};
pub use ledger::Ledger;
pub use offer_fault::OfferFault;
pub use run::Run;
pub use slip::{Slip, slip_of};
pub use slips_fault::SlipsFault;
pub use tally::SlipTally;
