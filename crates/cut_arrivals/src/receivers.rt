//! What four receivers of a trial propose, computed side by side.
//!
//! Each receiver is a lane of vectors. Its keys are drawn as images, and of these come the times from which on each
//! candidate is reported and stable, and the time at which the receiver proposes. Where images that are equal leave
//! that in doubt, the lane says so, and its caller replays that receiver's deliveries by whole keys.

mod deliveries;
mod gathered;
mod images;
mod lane_verdict;
mod lanes;
mod places;
mod receivers;
mod times;
mod trial;

pub use lane_verdict::{LaneVerdict, LaneVerdicts};
pub use places::Places;
pub use receivers::Receivers;
pub use trial::Trial;
