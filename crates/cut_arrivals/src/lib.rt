//! What four receivers of a trial propose, computed side by side by the times at which alerts come to them.
//!
//! The time of an alert at a receiver is the image of its key: the high 30 bits, which [`blocks`] computes for four
//! receivers at once. [`candidates`] finds the processes that matter, and where the keys of their alerts stand. A process is
//! reported and stable from two ranks of these images on, and a receiver proposes at the first time by which none is
//! between: [`lanes`] computes both, and [`ranks`] has their words. [`proposals`] has the laws by which that is what a
//! detector proposes, and [`receivers`] puts it together. Where equal images leave a proposal open, the receiver is in
//! doubt, and its caller replays it by whole keys.
#![tactic(auto)]

pub mod blocks;
pub mod candidates;
pub mod lanes;
pub mod proposals;
pub mod ranks;
pub mod receivers;
