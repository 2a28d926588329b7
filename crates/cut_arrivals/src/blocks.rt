//! Keys of deliveries for four receivers at once.
//!
//! A trial of a study draws a key for each delivery at each receiver from the key stream of ChaCha with 8 rounds (the
//! block function of RFC 8439). [`Blocks`] computes one block of four receivers side by side, a receiver in each lane
//! of a vector, and keeps of each key its image: the high 30 bits, which are all that distinguishing most deliveries
//! needs. Its contract says each word by the specification of `rand_chacha`, which has no call for four counters that
//! are apart.

mod blocks;
mod images;
pub mod laws;
mod rounds;

pub use blocks::Blocks;
pub use images::{NEVER, least_of};
