//! The jobs that a command line names, done over wires, files and sockets, and the status with which the program ends.
#![tactic(auto)]

mod devices;
mod jobs;
mod joins;
mod program;
mod quoted;
mod studies;

pub use devices::Devices;
pub use jobs::System;
pub use program::{end_unopened, end_unread, run_words};
