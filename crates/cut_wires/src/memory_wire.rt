ghost use Rattle.std.specs.Prelude.{◌≡◌, ◌==◌, IsErr, if◌then◌else◌};
ghost use Rattle.cut_faults.specs.Failures.{one_more};
ghost use Rattle.cut_wires.specs.Log.{no_traffic, none_failed, with_read, with_write};

use crate::{Wire, WireFault};
use cut_faults::Failures;
use std::alloc::Global;
use std::marker::Model;

/// A wire in memory: its reads give the bytes of an input, and its writes add to an output.
///
/// A call moves at most `per` bytes. With `per` 0 each read fails, and each write that is not empty. A write also fails
/// if memory runs out.
#[derive(Debug, Drop)]
pub struct MemoryWire {
    input: Vec<u8>,
    given: usize,
    output: Vec<u8>,
    ends: u64,
    per: usize,
    failed_reads: Failures,
    failed_writes: Failures,
}

impl Model for MemoryWire {
    ghost use Rattle.std.specs.Prelude.{◌≤◌, length, take};
    ghost use Rattle.cut_wires.specs.Memory.{MemoryWireValue};

    ghost Value = { MemoryWireValue };

    ghost view = { λ w. record {
      input = w.input.items;
      traffic = record { taken = w.output.items; given = take w.given w.input.items; ends = w.ends };
      per = w.per;
      failed = record { reads = w.failed_reads; writes = w.failed_writes };
    } };

    ghost invariant = { λ w. w.given ≤ length w.input.items };
}

impl MemoryWire {
    /// A wire over this input, over which nothing has passed yet.
    pub fn new(alloc: Global, input: Vec<u8>, per: usize) -> MemoryWire
        ensures { result ≡ record { input = input.items; traffic = no_traffic; per = per; failed = none_failed } }
    {
        MemoryWire {
            input,
            given: 0,
            output: Vec::new(alloc),
            ends: 0,
            per,
            failed_reads: Failures::none(),
            failed_writes: Failures::none(),
        }
    }

    /// The bytes that its writes took.
    pub fn taken(&self) -> &[u8]
        ensures { result.now ≡ self.now.traffic.taken }
    {
        self.output.as_slice()
    }

    /// Fails a read, and counts it.
    pub(crate) fn fail_read(&mut self) -> Result<usize, WireFault>
        ensures err { IsErr result }
        ensures count { self.new ≡ record self.old { failed = with_read self.old.failed } }
    {
        self.failed_reads.add();
        Err(WireFault)
    }

    /// Fails a write, and counts it.
    pub(crate) fn fail_write(&mut self) -> Result<usize, WireFault>
        ensures err { IsErr result }
        ensures count { self.new ≡ record self.old { failed = with_write self.old.failed } }
    {
        self.failed_writes.add();
        Err(WireFault)
    }
}

impl Wire for MemoryWire {
    ghost use Rattle.std.specs.Prelude.{◌<◌, length, Some};
    ghost use Rattle.cut_wires.specs.inside.Memory.{HasRead, HasWritten};

    ghost log = { λ w. record { traffic = Some w.traffic; failed = w.failed } };

    fn read(&mut self, buffer: &mut [u8]) -> Result<usize, WireFault>
        requires { 0 < length buffer.old }
        ensures exact { HasRead self.old result buffer.old buffer.new self.new }
    {
        if self.per == 0 {
            return self.fail_read();
        }
        let rest = &self.input[self.given..];
        let moved = rest.len().min(self.per).min(buffer.len());
        buffer[..moved].copy_from_slice(&rest[..moved]);
        self.ends = ends_after(self.ends, moved);
        self.given += moved;
        Ok(moved)
    }

    fn write(&mut self, bytes: &[u8]) -> Result<usize, WireFault>
        ensures exact { HasWritten self.old result bytes.now self.new }
    {
        let moved = bytes.len().min(self.per);
        if moved == 0 && !bytes.is_empty() {
            return self.fail_write();
        }
        match self.output.extend_from_slice(&bytes[..moved]) {
            Ok(()) => Ok(moved),
            Err(_) => self.fail_write(),
        }
    }

    fn failures(&self) -> u64 {
        self.failed_reads
            .count()
            .saturating_add(self.failed_writes.count())
    }
}

/// How many reads gave the end of the input, after one that gave this many bytes.
fn ends_after(ends: u64, moved: usize) -> u64
    ensures { result ≡ (if moved == 0 then one_more ends else ends) }
{
    match moved {
        0 => ends.saturating_add(1),
        _ => ends,
    }
}
