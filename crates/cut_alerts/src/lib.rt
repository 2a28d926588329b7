//! Roles and alerts: which processes fail in a trial, and which edges are alerted.
//!
//! The targets are the processes that fail; liars raise false alerts; a link source has one cut link. An observer
//! raises an alert about a subject that does not answer its probes (the Rapid paper's section on monitoring; who fails
//! and how is defined by this project).
#![tactic(auto)]

mod alerted;
mod fault;
mod given;
pub mod laws;
mod role;
mod roles;

pub use alerted::{alerts, alerts_into, is_alert};
pub use fault::RolesFault;
pub use role::Role;
pub use roles::Roles;
