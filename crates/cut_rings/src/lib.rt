//! Observer rings: who observes whom on which ring.
//!
//! Every ring holds every process. A process observes the one that follows it on a ring, cyclically, so each process
//! has one observer and one subject on each ring (the Rapid paper's section on the expander-based monitoring overlay).
//! How a ring is ordered is defined by this project.
#![tactic(auto)]

mod edge;
mod fault;
mod hashed;
pub mod laws;
mod listed;
mod ring;
mod rings;

pub use edge::Edge;
pub use fault::RingsFault;
pub use rings::Rings;
