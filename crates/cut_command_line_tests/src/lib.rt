//! What no contract of `cut_command_line` says: the texts of help and of mistakes, and that words name the jobs that a
//! user expects.
//!
//! The tests stand in a crate of their own, as they use the crate as its callers do, and its proof need not be made
//! again for them.
#![tactic(auto)]

#[cfg(test)]
mod lines;
