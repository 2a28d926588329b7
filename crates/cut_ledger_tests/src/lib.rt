//! What no contract of `cut_ledger` and `cut_table` says: ledgers, runs of the machine of events and tables that were
//! worked by hand, a plain list of slips, and wires that fail.
//!
//! The tests stand in a crate of their own, as they use these crates as their callers do, and the proofs of the crates
//! need not be made again for them.
#![tactic(auto)]

#[cfg(test)]
mod ledgers;
#[cfg(test)]
mod listings;
#[cfg(test)]
mod runs;
#[cfg(test)]
mod studies;
#[cfg(test)]
mod tables;
