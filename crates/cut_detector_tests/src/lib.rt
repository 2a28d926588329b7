//! What no contract of the crates from `cut_rings` to `cut_detector` says: rings, draws, alerts and detectors beside
//! values that were computed elsewhere, a detector that recounts, and printed faults.
//!
//! The tests stand in a crate of their own, as they use these crates as their callers do, and the proofs of the crates
//! need not be made again for them.
#![tactic(auto)]

#[cfg(test)]
mod alerts;
#[cfg(test)]
mod detectors;
#[cfg(test)]
mod draws;
#[cfg(test)]
mod edges;
#[cfg(test)]
mod recounts;
#[cfg(test)]
mod rings;
#[cfg(test)]
mod texts;
