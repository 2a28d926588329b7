//! Checkpoints of one plan, joined into one.
//!
//! The slips of all of them are judged together as one list. [`join`] appends to a journal one slip for each greatest run
//! of adjacent trials of a cell that some slip has, with the sums of the slips in it. [`laws`] say that this
//! changes no trial and no table.

mod joined;
mod joining;
pub mod laws;

pub use joining::join;
