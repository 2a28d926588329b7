ghost use Rattle.std.specs.Prelude.{◌≡◌, None, IsErr};
ghost use Rattle.cut_wires.specs.Log.{none_failed, write_failed};
ghost use Rattle.cut_sockets.specs.System.{connection_log};

use cut_faults::Failures;
use cut_wires::{Wire, WireFault};
use std::io::{Read, Write};
use std::os::unix::net::UnixStream;

/// A connection over a socket of the system, which owns it. Of what passes nothing is known; the calls that fail are
/// counted.
///
/// An interruption is a failure, and so is a write that takes nothing of some bytes.
#[derive(Drop)]
pub struct Connection {
    stream: UnixStream,
    failed_reads: Failures,
    failed_writes: Failures,
}

impl Connection {
    /// A connection over which nothing has passed yet.
    pub fn new(stream: UnixStream) -> Connection
        ensures { connection_log result ≡ record { traffic = None; failed = none_failed } }
    {
        Connection {
            stream,
            failed_reads: Failures::none(),
            failed_writes: Failures::none(),
        }
    }

    /// Fails a write, and counts it.
    fn fail_write(&mut self) -> Result<usize, WireFault>
        ensures err { IsErr result }
        ensures count { connection_log self.new ≡ write_failed (connection_log self.old) }
    {
        self.failed_writes.add();
        Err(WireFault)
    }
}

impl Wire for Connection {
    ghost log = { connection_log };

    fn read(&mut self, buffer: &mut [u8]) -> Result<usize, WireFault> {
        match self.stream.read(buffer) {
            Ok(count) => Ok(count),
            Err(_) => {
                self.failed_reads.add();
                Err(WireFault)
            }
        }
    }

    fn write(&mut self, bytes: &[u8]) -> Result<usize, WireFault> {
        match self.stream.write(bytes) {
            Ok(0) if !bytes.is_empty() => self.fail_write(),
            Ok(count) => Ok(count),
            Err(_) => self.fail_write(),
        }
    }

    fn failures(&self) -> u64 {
        self.failed_reads
            .count()
            .saturating_add(self.failed_writes.count())
    }
}
