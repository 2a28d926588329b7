ghost use Rattle.cut_wires.specs.Log.{SendsAll};

use crate::{CountingWriter, Wire};
use thiserror::Error;

/// A write that failed, or took nothing, after `sent` bytes.
#[derive(Clone, Copy, Debug, PartialEq, Eq, Error)]
#[error("a write failed after {sent} bytes")]
pub struct Sent {
    /// How many bytes were written before.
    pub sent: u64,
}

/// Writes all bytes, by as many writes as it takes, up to the first that fails. It takes no memory.
pub fn send_all<W: Wire>(wire: &mut W, bytes: &[u8]) -> Result<(), Sent>
    ensures { SendsAll result bytes.now (W.log wire.old) (W.log wire.new) }
{
    CountingWriter::new(wire).send(bytes)
}
