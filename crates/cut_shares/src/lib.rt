//! Studies that several machines run. [`share`] says which trials a machine has, and runs them into its checkpoint;
//! [`join`] makes one checkpoint of the slips of several.
#![tactic(auto)]

pub mod join;
pub mod share;
