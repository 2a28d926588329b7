//! A set of numbers below a length, kept as the ends of its runs.
//!
//! A [`RangeSet`] takes memory for each run, however long it is. Its numbers are divided into *sections* of equal
//! length. Memory is reserved by section, and an insertion into one section leaves the memory of the others alone.

mod edges;
pub mod laws;
mod range_set;
mod run;
mod section;
mod span;

pub use range_set::RangeSet;
pub use span::Span;
