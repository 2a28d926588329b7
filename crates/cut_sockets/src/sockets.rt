ghost use Rattle.std.specs.Prelude.{◌≡◌, ℕ, List, IfOk, OnOk, OnErr};
ghost use Rattle.cut_sockets.specs.Peer.{Peer, IsCalled, IsConnected, KeepsOtherPeers, MayNotConnect, hung_up};

use cut_wires::Wire;
use thiserror::Error;

/// A socket was not connected to.
#[derive(Clone, Copy, Debug, PartialEq, Eq, Error)]
#[error("a socket was not connected to")]
pub struct ConnectFault;

/// What connects to sockets by their paths, and hangs up.
///
/// Contracts see the peer of each path, who listens at its socket; a path is the list of its bytes. A call changes only
/// the peer of its own path. Two texts that lead to the same socket are two paths.
///
/// A connection is a wire, which the caller owns. If it is dropped without `hang_up`, the peer stays busy, and nothing
/// more is known of what passed.
pub trait Sockets {
    /// The wire of a connection.
    type Wire: Wire + Drop;

    /// The peer of each path.
    ghost log: { Self → List ℕ → Peer };

    /// Connects to the socket at a path.
    ///
    /// # Errors
    /// If nobody listens there, or the peer is busy. The peer is not changed then.
    fn connect(&mut self, path: &str) -> Result<Self::Wire, ConnectFault>
        ensures connected { IfOk result
            (λ wire. IsConnected (Self.Wire.log wire) (log self.old path.now) (log self.new path.now)) }
        ensures called { OnOk result (IsCalled (log self.new path.now)) }
        ensures refused { OnErr result (MayNotConnect (log self.old path.now)) }
        ensures stays { OnErr result (log self.new path.now ≡ log self.old path.now) }
        ensures elsewhere { KeepsOtherPeers path.now (log self.old) (log self.new) };

    /// Gives the wire of a connection back, which ends with that.
    fn hang_up(&mut self, path: &str, wire: Self::Wire)
        requires { IsCalled (log self.old path.now) }
        ensures ended { log self.new path.now ≡ hung_up (Self.Wire.log wire) (log self.old path.now) }
        ensures elsewhere { KeepsOtherPeers path.now (log self.old) (log self.new) };
}
