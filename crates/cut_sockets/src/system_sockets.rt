use crate::{ConnectFault, Connection, Sockets};
use std::os::unix::net::UnixStream;

/// The sockets of the system. Nothing is known of them: other programs listen there, and no clause says what the system
/// does with a call.
///
/// A connection that is not made is a [`ConnectFault`], whatever the cause. It ends when it is dropped.
#[derive(Clone, Copy)]
pub struct SystemSockets<'a> {
    host: &'a HostRuntime,
}

impl<'a> SystemSockets<'a> {
    /// The sockets that this program may connect to.
    pub fn of(host: &'a HostRuntime) -> SystemSockets<'a> {
        SystemSockets { host }
    }
}

impl<'a> Sockets for SystemSockets<'a> {
    type Wire = Connection;

    ghost use Rattle.cut_sockets.specs.Peer.{Unknown};

    ghost log = { λ _ _. Unknown };

    fn connect(&mut self, path: &str) -> Result<Connection, ConnectFault> {
        match UnixStream::connect(self.host, path) {
            Ok(stream) => Ok(Connection::new(stream)),
            Err(_) => Err(ConnectFault),
        }
    }

    fn hang_up(&mut self, _path: &str, connection: Connection) {
        drop(connection);
    }
}
