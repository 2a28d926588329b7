//! The limits of a plan.

/// The longest text of a plan in bytes, which a server's message carries, too.
pub const LONGEST_TEXT: usize = 65_536;

/// The most processes, and so the most that are deaf, liars or at cut links: the draws of a trial number a receiver,
/// and the subject of an edge, by 11 bits each.
pub const MOST_NODES: u64 = 2_048;

/// The most rings, which is also the greatest watermark: the rings on which a process is reported are the bits of a
/// word of 32.
pub const MOST_RINGS: u64 = 32;

/// The most copies of an alert that come to a receiver: the draws number them by two bits.
pub const MOST_COPIES: u64 = 4;

/// The most cells: with `MOST_REPEATS` trials in each, the numbers of all trials have 32 bits.
pub const MOST_CELLS: u64 = 4_096;

/// The most trials of a cell.
pub const MOST_REPEATS: u64 = 1_000_000;
