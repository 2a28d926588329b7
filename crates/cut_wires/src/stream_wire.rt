ghost use Rattle.std.specs.Prelude.{◌≡◌, ◌<◌, ◌==◌, IfSome, IsErr, if◌then◌else◌};
ghost use Rattle.std.specs.Io.KnownBytes.{Appends, Consumes, IsAtEnd};
ghost use Rattle.cut_faults.specs.Failures.{one_more};
ghost use Rattle.cut_wires.specs.Streams.{new_streams, traffic_of};

use crate::{Wire, WireFault};
use cut_faults::Failures;
use std::io::{Read, Write};
use std::marker::Model;
use std::snapshot::Snapshot;

/// A wire over any reader and any writer.
///
/// An interruption is a failure, and so is a write that takes nothing of some bytes. What passed over the wire is known
/// if the bytes of the reader and of the writer are.
#[derive(Drop)]
pub struct StreamWire<R: Read, W: Write> {
    input: R,
    output: W,
    first: Snapshot<R>,
    held: Snapshot<W>,
    ends: u64,
    failed_reads: Failures,
    failed_writes: Failures,
}

impl<R: Read, W: Write> Model for StreamWire<R, W> {
    ghost use Rattle.cut_wires.specs.Streams.{Streams, streams_code};
    ghost use Rattle.cut_wires.specs.inside.Streams.{IsFollowed};

    ghost Value = { Streams R W };

    ghost coded = { streams_code R.code W.code };

    ghost view = { λ s. record {
      input = s.input;
      output = s.output;
      first = s.first.value;
      held = s.held.value;
      ends = s.ends;
      failed_reads = s.failed_reads;
      failed_writes = s.failed_writes;
    } };

    ghost invariant = { λ s. IsFollowed (R.remaining s.first.value) (R.remaining s.input)
        (W.contents s.held.value) (W.contents s.output) s.ends };
}

impl<R: Read, W: Write> StreamWire<R, W> {
    /// A wire over these two, over which nothing has passed yet.
    pub fn new(input: R, output: W) -> StreamWire<R, W>
        ensures { result ≡ new_streams input output }
    {
        let first = Snapshot::of(&input);
        let held = Snapshot::of(&output);
        StreamWire {
            input,
            output,
            first,
            held,
            ends: 0,
            failed_reads: Failures::none(),
            failed_writes: Failures::none(),
        }
    }

    /// The reader and the writer, as the wire leaves them.
    pub fn into_parts(self) -> (R, W)
        ensures parts { result ≡ (self.input, self.output) }
        ensures read { Consumes (R.remaining self.first) (R.remaining result.0)
            (traffic_of R.remaining W.contents self).given }
        ensures written { Appends (W.contents self.held) (W.contents result.1)
            (traffic_of R.remaining W.contents self).taken }
        ensures ended { 0 < self.ends →
            IfSome (R.remaining self.first) (λ _. IsAtEnd (R.remaining result.0)) }
    {
        (self.input, self.output)
    }

    /// Fails a write, and counts it.
    fn fail_write(&mut self) -> Result<usize, WireFault>
        ensures err { IsErr result }
        ensures count { self.new ≡ record self.old { failed_writes = one_more self.old.failed_writes } }
    {
        self.failed_writes.add();
        Err(WireFault)
    }
}

impl<R: Read, W: Write> Wire for StreamWire<R, W> {
    ghost use Rattle.cut_wires.specs.Streams.{log_of};

    ghost log = { log_of R.remaining W.contents };

    fn read(&mut self, buffer: &mut [u8]) -> Result<usize, WireFault> {
        match self.input.read(buffer) {
            Ok(n) => {
                self.ends = ends_after(self.ends, n);
                Ok(n)
            }
            Err(_) => {
                self.failed_reads.add();
                Err(WireFault)
            }
        }
    }

    fn write(&mut self, bytes: &[u8]) -> Result<usize, WireFault> {
        match self.output.write(bytes) {
            Ok(0) if !bytes.is_empty() => self.fail_write(),
            Ok(n) => Ok(n),
            Err(_) => self.fail_write(),
        }
    }

    fn failures(&self) -> u64 {
        self.failed_reads
            .count()
            .saturating_add(self.failed_writes.count())
    }
}

/// How many reads gave the end of the input, after one that gave this many bytes.
fn ends_after(ends: u64, given: usize) -> u64
    ensures { result ≡ (if given == 0 then one_more ends else ends) }
{
    match given {
        0 => ends.saturating_add(1),
        _ => ends,
    }
}
