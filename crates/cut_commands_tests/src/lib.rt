//! What no contract of `cut_commands` says: readers, writers and disks that fail at each call, and checkpoints and their
//! migration.
//!
//! The tests stand in a crate of their own, as they use the crate as its callers do, and the proofs of the crate need
//! not be made again for them.
#![tactic(auto)]

#[cfg(test)]
mod commands;
#[cfg(test)]
mod workers;
