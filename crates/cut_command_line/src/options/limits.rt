//! The limits of what the program's words and options take.

/// The most trials of a piece.
pub const LARGEST_PIECE: u32 = 1_000_000;

/// The most workers of a study.
pub const MOST_WORKERS: u32 = 64;

/// The most workers, sessions and studies of a server, each.
pub const MOST_OF_EACH: u32 = 64;

/// The most shares.
pub const MOST_SHARES: u32 = 100_000;

/// The most checkpoints of a join.
pub const MOST_CHECKPOINTS: usize = 1_000;
