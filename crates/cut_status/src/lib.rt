//! What a checkpoint file holds: which study it is of, and how much of that is done.
//!
//! [`status_of`] says it of the bytes of a file. [`laws`] say that bytes have one status at most.
#![tactic(auto)]

mod counts;
mod fault;
mod header;
pub mod laws;
mod reading;
mod status;

pub use counts::trials_held;
pub use fault::StatusFault;
pub use reading::status_of;
pub use status::Status;
