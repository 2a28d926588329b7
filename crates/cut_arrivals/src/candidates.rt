//! The processes that matter for proposals in a trial, whatever its receivers draw.
//!
//! A process that all alerts of a trial together report on fewer than L rings is never unstable and never stable, at
//! any receiver and any time. The others are the trial's candidates. [`Candidates`] lists them once for all receivers:
//! with the blocks of keys that they need, where in these the key of each alert stands, and which rings count for each
//! process in the end, by its alerts and by implicit ones.

mod candidate;
mod candidates;
mod key_places;
mod reported;
mod runs;

pub use candidate::{Candidate, Cause};
pub use candidates::Candidates;
pub use key_places::{KeyPlace, KeyPlaces};
