ghost use Rattle.std.specs.Prelude.{◌≡◌, ◌<◌, ◌≤◌, length, IfOk};
ghost use Rattle.cut_wires.specs.Log.{WireLog, Reads, WritesWire, all_failed};

use thiserror::Error;

/// A call of a wire failed.
#[derive(Clone, Copy, Debug, PartialEq, Eq, Error)]
#[error("a call of the wire failed")]
pub struct WireFault;

/// A device from which bytes are read and to which bytes are written. It counts its failed calls.
///
/// An interruption is a failure, and so is a write that takes nothing of some bytes. A failed call adds one to the
/// count of failed reads or writes, which stays at 2^64 - 1; other calls leave both. What passed is known for a wire in
/// memory. For a socket only the counts are known.
pub trait Wire {
    /// What passed over the wire, if that is known, and how many of its calls failed.
    ghost log: { Self → WireLog };

    /// Reads some bytes into the first places of the buffer, and returns how many; 0 is the end of the input.
    fn read(&mut self, buffer: &mut [u8]) -> Result<usize, WireFault>
        requires { 0 < length buffer.old }
        ensures bound { IfOk result (λ n. n ≤ length buffer.new) }
        ensures reads { Reads result buffer.new (log self.old) (log self.new) };

    /// Writes some of the first bytes, and returns how many: at least one, if there is one.
    fn write(&mut self, bytes: &[u8]) -> Result<usize, WireFault>
        ensures bound { IfOk result (λ n. n ≤ length bytes.now) }
        ensures some { 0 < length bytes.now → IfOk result (λ n. 0 < n) }
        ensures writes { WritesWire result bytes.now (log self.old) (log self.new) };

    /// How many of its calls failed, reads and writes together.
    fn failures(&self) -> u64
        ensures { result ≡ all_failed (log self.now).failed };
}

/// A borrowed wire is a wire.
impl<W: Wire> Wire for &mut W {
    ghost log = { λ w. W.log w.now };

    fn read(&mut self, buffer: &mut [u8]) -> Result<usize, WireFault> {
        (**self).read(buffer)
    }

    fn write(&mut self, bytes: &[u8]) -> Result<usize, WireFault> {
        (**self).write(bytes)
    }

    fn failures(&self) -> u64 {
        (**self).failures()
    }
}
