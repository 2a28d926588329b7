//! What no contract of `cut_messages`, `cut_session` and `cut_server` says: sessions beside a real worker and beside each
//! other, shelves, disks, wires and allocations that fail, what is printed, and servers with real clients, over sockets of
//! the system and over wires in memory.
//!
//! The tests stand in a crate of their own, as they use these crates as their callers do, and the proofs of the crates
//! need not be made again for them.
#![tactic(auto)]

#[cfg(test)]
mod asking;
#[cfg(test)]
mod halls;
#[cfg(test)]
mod names;
#[cfg(test)]
mod readings;
#[cfg(test)]
mod refused_memory;
#[cfg(test)]
mod servers;
#[cfg(test)]
mod serving;
#[cfg(test)]
mod shelves;
#[cfg(test)]
mod sockets;
#[cfg(test)]
mod two_sessions;
#[cfg(test)]
mod worker;
