//! What no contract of `cut_disks`, `cut_journal`, `cut_status`, `cut_migration`, `cut_shares` and `cut_machines`
//! says: real files, which calls a journal makes, disks that fail at each call, what is printed, and which machine has
//! which trial of a small plan; that the commands of shares and joins succeed, and how they end where disks, wires and
//! allocations fail.
//!
//! The tests stand in a crate of their own, as they use these crates as their callers do, and the proofs of the crates
//! need not be made again for them.
#![tactic(auto)]

#[cfg(test)]
mod disks;
#[cfg(test)]
mod join_commands;
#[cfg(test)]
mod journals;
#[cfg(test)]
mod share_commands;
#[cfg(test)]
mod shares;
#[cfg(test)]
mod statuses;
