//! Ranks of times, and the time by which all that began before it has ended: words that contracts use, and lemmas on
//! them. The crate has no code: `specs/` has the words, and `proofs/` is what it offers, by module:
//!
//! - `Ranks`: when a rank has come, ranks of one value more, the least of some times;
//! - `Closings`: least times by which all has ended, and doubts;
//! - `Choices`: what comparisons and choices give in a lane of vectors of four.
