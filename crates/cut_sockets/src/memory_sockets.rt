ghost use Rattle.std.specs.Prelude.{◌≡◌, ℕ, List, Some, None, OnOk, OnErr, option_copied};
ghost use Rattle.cut_sockets.specs.Memory.{kept_at, wire_of, KeepsElsewhere};

use crate::{ConnectFault, Sockets};
use cut_wires::{MemoryWire, Wire};
use std::alloc::{AllocError, Global};
use std::collections::BTreeMap;

/// Sockets in memory, to try out what a program does with a server.
///
/// The wire of each was put there by `put`: a `MemoryWire` has what the server replies, and a `FaultyWire` fails at a
/// chosen call. Where none was put, a connection is refused.
#[derive(Drop)]
pub struct MemorySockets<W = MemoryWire> {
    alloc: Global,
    wires: BTreeMap<String, Option<W>>,
}

impl<W: Wire + Drop> MemorySockets<W> {
    /// No sockets.
    pub fn new(alloc: Global) -> MemorySockets<W>
        ensures { (path : List ℕ) → kept_at result path ≡ None }
    {
        MemorySockets {
            alloc,
            wires: BTreeMap::new(alloc),
        }
    }

    /// Puts a socket with this wire at a path, in place of what stood there. If memory runs out, nothing is changed.
    pub fn put(&mut self, path: &str, wire: W) -> Result<(), AllocError>
        ensures put { OnOk result (kept_at self.new path.now ≡ Some (Some wire)) }
        ensures stays { OnErr result (kept_at self.new path.now ≡ kept_at self.old path.now) }
        ensures elsewhere { KeepsElsewhere path.now self.old self.new }
    {
        let path = String::from_str(self.alloc, path)?;
        self.wires.insert(path, Some(wire))?;
        Ok(())
    }

    /// The wire of the socket at a path, if there is one that is not busy.
    pub fn wire(&self, path: &str) -> Option<&W>
        ensures { option_copied result ≡ wire_of (kept_at self.now path.now) }
    {
        self.wires.get(path)?.as_ref()
    }
}

impl<W: Wire + Drop> Sockets for MemorySockets<W> {
    type Wire = W;

    ghost use Rattle.cut_sockets.specs.Memory.{peer_at};

    ghost log = { peer_at W.log };

    fn connect(&mut self, path: &str) -> Result<W, ConnectFault> {
        match self.wires.get_mut(path) {
            Some(kept) => kept.take().ok_or(ConnectFault),
            None => Err(ConnectFault),
        }
    }

    fn hang_up(&mut self, path: &str, wire: W) {
        if let Some(kept) = self.wires.get_mut(path) {
            *kept = Some(wire);
        }
    }
}
