//! What no contract says of running a study: of `cut_hall` in `hall`; and in `pool` of `cut_book` and `cut_pool`.
//!
//! The tests stand in a crate of their own, as they use these crates as their callers do, and the proofs of the
//! crates need not be made again for them.
#![tactic(auto)]

#[cfg(test)]
mod hall;
#[cfg(test)]
mod pool;
