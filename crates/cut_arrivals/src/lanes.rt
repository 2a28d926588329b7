//! Ranks of times and proposal times for four receivers at once.
//!
//! A receiver is a lane of vectors, and its times are images of keys, at most [`NEVER`](crate::blocks::NEVER). [`ordered`]
//! gives the lesser and the greater of two times of each receiver; [`select`] two ranks of each receiver's times;
//! [`compute_proposal_time`] the time by which each process that began before it has ended, and whether equal images
//! leave that in doubt.

mod lanes;
mod proposal_time;
mod ranks;

pub use lanes::ordered;
pub use proposal_time::{ProposalTime, compute_proposal_time};
pub use ranks::select;
