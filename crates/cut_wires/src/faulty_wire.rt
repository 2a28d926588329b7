ghost use Rattle.std.specs.Prelude.{◌≡◌, Some};
ghost use Rattle.cut_wires.specs.Log.{no_traffic, none_failed};

use crate::{MemoryWire, Wire, WireFault};
use std::alloc::Global;
use std::marker::Model;

/// A wire in memory that fails at chosen calls, to try out what a failure leaves.
///
/// Its writes take `room` bytes in all: one that would pass that is cut, and the next one fails. So does the read with
/// the number `fail_read`, counted from 1, if that is not 0. Each fails once, and after it the wire is as any other in
/// memory.
#[derive(Debug, Drop)]
pub struct FaultyWire {
    memory: MemoryWire,
    room: Option<usize>,
    fail_in: u64,
}

impl Model for FaultyWire {
    ghost use Rattle.cut_wires.specs.Faulty.{FaultyWireValue};

    ghost Value = { FaultyWireValue };

    ghost view = { λ w. record { memory = w.memory; room = w.room; fail_in = w.fail_in } };
}

impl FaultyWire {
    /// A wire over this input, of which a call moves at most `per` bytes.
    pub fn new(alloc: Global, input: Vec<u8>, per: usize, room: usize, fail_read: u64) -> FaultyWire
        ensures { result ≡ record {
          memory = record { input = input.items; traffic = no_traffic; per = per; failed = none_failed };
          room = Some room;
          fail_in = fail_read;
        } }
    {
        FaultyWire {
            memory: MemoryWire::new(alloc, input, per),
            room: Some(room),
            fail_in: fail_read,
        }
    }

    /// The bytes that its writes took.
    pub fn taken(&self) -> &[u8]
        ensures { result.now ≡ self.now.memory.traffic.taken }
    {
        self.memory.taken()
    }
}

impl Wire for FaultyWire {
    ghost use Rattle.std.specs.Prelude.{◌<◌, ◌≤◌, length, IfOk};
    ghost use Rattle.cut_wires.specs.Log.{WritesWire};
    ghost use Rattle.cut_wires.specs.inside.Faulty.{HasReadInTurn, HasWrittenInRoom};

    ghost log = { λ w. record { traffic = Some w.memory.traffic; failed = w.memory.failed } };

    fn read(&mut self, buffer: &mut [u8]) -> Result<usize, WireFault>
        requires { 0 < length buffer.old }
        ensures exact { HasReadInTurn self.old result buffer.old buffer.new self.new }
    {
        let due = self.fail_in;
        self.fail_in = due.saturating_sub(1);
        if due == 1 {
            return self.memory.fail_read();
        }
        self.memory.read(buffer)
    }

    fn write(&mut self, bytes: &[u8]) -> Result<usize, WireFault>
        ensures exact { HasWrittenInRoom self.old result bytes.now self.new }
        ensures bound { IfOk result (λ n. n ≤ length bytes.now) }
        ensures some { 0 < length bytes.now → IfOk result (λ n. 0 < n) }
        ensures writes { WritesWire result bytes.now
            (record { traffic = Some self.old.memory.traffic; failed = self.old.memory.failed })
            (record { traffic = Some self.new.memory.traffic; failed = self.new.memory.failed }) }
    {
        let Some(room) = self.room else {
            return self.memory.write(bytes);
        };
        if room == 0 && !bytes.is_empty() {
            self.room = None;
            return self.memory.fail_write();
        }
        let taken = self.memory.write(&bytes[..room.min(bytes.len())])?;
        self.room = Some(room - taken);
        Ok(taken)
    }

    fn failures(&self) -> u64 {
        self.memory.failures()
    }
}
