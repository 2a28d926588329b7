//! What no contract says of computing a trial: of `cut_arrivals` in `receivers`; and in `trial` of `cut_plan`,
//! `cut_outcome`, `cut_trial`, `cut_ledger`'s lines and `cut_explain`.
//!
//! The tests stand in a crate of their own, as they use these crates as their callers do, and the proofs of the crates
//! need not be made again for them.
#![tactic(auto)]

#[cfg(test)]
mod receivers;
#[cfg(test)]
mod trial;
