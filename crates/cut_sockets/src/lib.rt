//! Connecting to sockets by their paths: a trait that says who listens at each path before a call and after it.
//!
//! [`SystemSockets`] are the sockets of the system, of which nothing is known. [`MemorySockets`] are sockets in memory,
//! of which everything is known.
#![tactic(auto)]

mod connection;
mod memory_sockets;
mod sockets;
mod system_sockets;

pub use connection::Connection;
pub use memory_sockets::MemorySockets;
pub use sockets::{ConnectFault, Sockets};
pub use system_sockets::SystemSockets;
