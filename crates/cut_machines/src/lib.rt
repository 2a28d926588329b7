//! The program's commands for a study that several machines run, over wires and files.
//!
//! [`share`] runs one share of a plan and keeps it in a file. [`join`] joins the checkpoints of a plan's study in a new
//! one. Each ends with its answer or with a fault of the program.
//!
//! What they say of the bytes on a wire is known if its log has them, and what they say of a file if it is known what
//! stands at its path.
//!
//! [`laws`] say that the files of shares join to the table of the plan.
#![tactic(auto)]

mod join_command;
mod join_sources;
mod join_target;
pub mod laws;
mod share_answer;
mod share_command;

pub use join_command::{Joined, JoinedFiles, join};
pub use share_command::{ShareWork, share};
