ghost use Rattle.std.specs.Prelude.{◌≡◌, ◌^◌, ◌<◌, ◌≤◌, length, IfOk};

use crate::{Sent, Wire, WireFault};

/// A wire that is borrowed, with a count of the bytes that were sent over it. At 2^64 - 1 the count stays.
#[derive(Drop)]
pub struct CountingWriter<'a, W> {
    wire: &'a mut W,
    sent: u64,
    ghost small: { sent < 2 ^ 64 },
}

impl<'a, W: Wire> CountingWriter<'a, W> {
    ghost use Rattle.cut_wires.specs.Sending.{Receives, Sends, sending};

    /// A wire over which nothing was sent yet.
    pub fn new(wire: &'a mut W) -> CountingWriter<'a, W>
        ensures { sending W.log result ≡
            record { wire = wire.entry.ghost_name; log = W.log wire.old; sent = 0 } }
    {
        CountingWriter { wire, sent: 0 }
    }

    /// A wire over which this many bytes were sent before.
    pub fn after(wire: &'a mut W, sent: u64) -> CountingWriter<'a, W>
        ensures { sending W.log result ≡
            record { wire = wire.entry.ghost_name; log = W.log wire.old; sent = sent } }
    {
        CountingWriter { wire, sent }
    }

    /// How many bytes were sent, including those before a write that failed.
    pub fn sent(&self) -> u64
        ensures { result ≡ (sending W.log self.now).sent }
    {
        self.sent
    }

    /// Reads from the wire. Nothing is sent.
    pub fn read(&mut self, buffer: &mut [u8]) -> Result<usize, WireFault>
        requires { 0 < length buffer.old }
        ensures bound { IfOk result (λ n. n ≤ length buffer.new) }
        ensures reads { Receives result buffer.new (sending W.log self.old) (sending W.log self.new) }
    {
        self.wire.read(buffer)
    }

    /// Sends all the bytes, and counts them. If a write fails, it counts those that the wire took, and the fault has
    /// the writer's count.
    pub fn send(&mut self, bytes: &[u8]) -> Result<(), Sent>
        ensures { Sends result bytes.now (sending W.log self.old) (sending W.log self.new) }
    {
        let mut taken = 0;
        while taken < bytes.len() {
            match self.wire.write(&bytes[taken..]) {
                Ok(n) => {
                    taken += n;
                    self.sent = self.sent.saturating_add(n as u64);
                }
                Err(_) => return Err(Sent { sent: self.sent }),
            }
        }
        Ok(())
    }
}
