//! Multi-process cut detection.
//!
//! A process that receives alerts counts, for each subject, the distinct rings on which it was
//! reported. A subject with at least H is stable, one with at least L and fewer than H is unstable.
//! It proposes all stable subjects as soon as there is one and no subject is unstable (the Rapid
//! paper's section on multi-process cut detection; what implicit alerts add is this project's profile).
#![tactic(auto)]

mod detector;
mod gains;
pub mod laws;
mod masks;
mod proposal;
mod reports;
mod rule;
mod step;
mod tally;

pub use detector::{Detector, replay};
pub use proposal::{Members, Proposal};
pub use rule::Rule;
pub use step::Step;
