//! The command line of the program: what its words ask for, and what is wrong with them, as clap says it.
#![tactic(auto)]

mod job;
mod line;
mod machines;
pub mod options;

pub use job::{
    AskOptions, Job, JoinOptions, MigrateOptions, RunOptions, ServeOptions, ShareOptions,
};
pub use line::{LineFault, parse_line};
