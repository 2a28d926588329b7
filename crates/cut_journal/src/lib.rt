//! The journal of a study: a file that keeps the slips of its pieces, in order, whatever crash may come.
//!
//! A slip counts from the moment on at which its gate is open, and a gate is opened by a write of its own,
//! once all that follows it is durable. So whatever a crash leaves is read as the slips that were kept, or
//! as these and the one whose append was under way.
#![tactic(auto)]

mod accepted_slips;
mod added_slips;
mod durable_write;
mod fault;
mod first_bytes;
mod first_look;
mod format;
mod journal;
mod kept_slips;
mod kept_study;
pub mod laws;
mod layout;
mod new_study;
mod open;
mod slip_append;
mod slips;
mod store_fault;

pub use accepted_slips::AcceptedSlips;
pub use cut_disks::{Disk, FaultyDisk, FileDisk, MemoryDisk, Tear};
pub use fault::JournalFault;
pub use first_bytes::{header_text, is_study};
pub use format::digest_of;
pub use journal::Journal;
pub use kept_slips::KeptSlips;
pub use store_fault::StoreFault;
