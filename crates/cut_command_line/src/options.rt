//! The commands of the program with their words, options and flags, as clap is given them, and the limits of what they take.

mod arguments;
mod commands;
mod limits;

pub use commands::{JOIN_USAGE, SHARE_USAGE, program_commands};
pub use limits::{LARGEST_PIECE, MOST_CHECKPOINTS, MOST_OF_EACH, MOST_SHARES, MOST_WORKERS};
