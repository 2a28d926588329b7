//! What no contract of the lower crates says: sets, lists and faults read one by one, files of the system and in memory,
//! blocks beside keys, lanes beside sorted times, boards by hand and under many threads, wires that move few bytes or fail,
//! sockets of the system and in memory, and an answer that ends early.
//!
//! The tests stand in a crate of their own, as they use these crates as their callers do, and the proofs of the crates
//! need not be made again for them.
#![tactic(auto)]

#[cfg(test)]
mod asking;
#[cfg(test)]
mod bits;
#[cfg(test)]
mod blocks;
#[cfg(test)]
mod boards;
#[cfg(test)]
mod faults;
#[cfg(test)]
mod files;
#[cfg(test)]
mod items;
#[cfg(test)]
mod lanes;
#[cfg(test)]
mod ranges;
#[cfg(test)]
mod sockets;
#[cfg(test)]
mod wires;
