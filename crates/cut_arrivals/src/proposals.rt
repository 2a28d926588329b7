//! What a receiver proposes, by the times at which edges come to it.
//!
//! A process that counts reports is stable from a time on, and unstable only before that: from the time at which
//! enough edges to it have come for a report to the one at which enough rings count. So the proposal is that of the
//! first time at which some process is stable and none is between its two times, and no delivery has to be replayed.
//! Times may be places among the deliveries, or images of their keys. The crate has no code: [`laws`] say all this.

pub mod laws;
