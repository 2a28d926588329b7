//! A server of studies at a socket: its workers and its sessions are threads of one hall.
//!
//! A [`Server`] takes its connections from any [`Listener`], serves each in a thread of its own, and gives the hall's
//! report; [`Server::serve_io`] writes how many trials the studies of it accepted, and [`serve_at`] does so for the
//! connections of a [`Socket`], which is a socket at a path. A [`FolderShelf`] keeps each study in a file of a folder.
//!
//! No contract says that a wait ends: neither that a connection comes, nor that a session ends.
#![tactic(auto)]

mod capacity;
pub mod laws;
mod serve;
mod shelf;
mod socket;
mod threads;

pub use capacity::Capacity;
pub use serve::{Server, SocketServer, serve_at};
pub use shelf::FolderShelf;
pub use socket::{Socket, SocketWire};
pub use threads::{ListenFault, Listener};
