ghost use Rattle.std.specs.Prelude.{[], ◌∷◌};

use cut_wires::{
    CountingWriter, FaultyWire, MemoryWire, PlainRows, RowSource, RowsFault, Sent, StreamWire,
    Wire, send_all, send_rows,
};
use std::alloc::Global;
use std::test::Fail;

/// Whether a read into the buffer gives these bytes, or fails if none are to be given.
fn gives<W: Wire>(wire: &mut W, buffer: &mut [u8], wanted: Option<&[u8]>) -> bool {
    if buffer.is_empty() {
        return false;
    }
    match wire.read(buffer) {
        Ok(count) => buffer.get(..count) == wanted,
        Err(_) => wanted.is_none(),
    }
}

/// Whether a write of these bytes takes this many, or fails if none are to be taken.
fn takes<W: Wire>(wire: &mut W, bytes: &[u8], wanted: Option<usize>) -> bool {
    wire.write(bytes).ok() == wanted
}

/// Whether a wire over three bytes gives two and one, and takes two of three.
fn moves_two(wire: &mut MemoryWire) -> bool {
    gives(wire, &mut [0; 4], Some(b"ab"))
        && gives(wire, &mut [0; 4], Some(b"c"))
        && gives(wire, &mut [0; 4], Some(b""))
        && takes(wire, b"xyz", Some(2))
        && wire.taken() == b"xy".as_slice()
        && wire.failures() == 0
}

#[test]
fn a_wire_in_memory_moves_bytes(rt: HostRuntime) -> Result<(), Fail> {
    let bytes = Vec::from_slice(rt.alloc(), b"abc")?;
    assert!(rt; moves_two(&mut MemoryWire::new(rt.alloc(), bytes, 2)));
    Ok(())
}

/// Whether a wire has taken these bytes, and this many of its calls have failed.
fn has_taken(wire: &FaultyWire, bytes: &[u8], failures: u64) -> bool {
    wire.taken() == bytes && wire.failures() == failures
}

// After six bytes a write fails, and none after it.
#[test]
fn a_write_fails_once(rt: HostRuntime) {
    let mut wire = FaultyWire::new(rt.alloc(), Vec::new(rt.alloc()), 3, 6, 0);
    let first = send_all(&mut wire, b"0123456789");
    assert!(rt; first == Err(Sent { sent: 6 }) && has_taken(&wire, b"012345", 1));
    let second = send_all(&mut &mut wire, b"ab");
    assert!(rt; second == Ok(()) && has_taken(&wire, b"012345ab", 1));
}

/// Whether the second read of five bytes fails, and the others give two, two, one and none.
fn fails_once(wire: &mut FaultyWire) -> bool {
    gives(wire, &mut [0; 4], Some(b"ab"))
        && gives(wire, &mut [0; 4], None)
        && gives(wire, &mut [0; 4], Some(b"cd"))
        && gives(wire, &mut [0; 4], Some(b"e"))
        && gives(wire, &mut [0; 4], Some(b""))
        && has_taken(wire, b"", 1)
}

#[test]
fn a_read_fails_once(rt: HostRuntime) -> Result<(), Fail> {
    let bytes = Vec::from_slice(rt.alloc(), b"abcde")?;
    let mut wire = FaultyWire::new(rt.alloc(), bytes, 2, 0, 2);
    assert!(rt; fails_once(&mut wire));
    Ok(())
}

/// Whether a wire over three bytes gives two and takes two, and leaves the rest.
fn moves_over_streams(mut wire: StreamWire<&[u8], Vec<u8>>) -> bool {
    let is_moved = gives(&mut wire, &mut [0; 2], Some(b"ab")) && takes(&mut wire, b"xy", Some(2));
    let failures = wire.failures();
    let (rest, output) = wire.into_parts();
    is_moved && failures == 0 && rest == b"c".as_slice() && output.as_slice() == b"xy".as_slice()
}

#[test]
fn a_wire_of_streams_moves_bytes(rt: HostRuntime) {
    let wire = StreamWire::new(b"abc".as_slice(), Vec::new(rt.alloc()));
    assert!(rt; moves_over_streams(wire));
}

/// Whether a counting writer sends these bytes, or fails after some if a fault is to come, and has sent this many then.
fn sends<W: Wire>(
    writer: &mut CountingWriter<'_, W>,
    bytes: &[u8],
    end: Result<(), Sent>,
    sent: u64,
) -> bool {
    writer.send(bytes) == end && writer.sent() == sent
}

/// Whether a counting writer over a wire counts three bytes, and two more before a write fails.
fn counts(wire: &mut FaultyWire) -> bool {
    let mut writer = CountingWriter::new(wire);
    sends(&mut writer, b"abc", Ok(()), 3) && sends(&mut writer, b"def", Err(Sent { sent: 5 }), 5)
}

#[test]
fn a_line_counts_what_it_sends(rt: HostRuntime) {
    let mut wire = FaultyWire::new(rt.alloc(), Vec::new(rt.alloc()), 2, 5, 0);
    assert!(rt; counts(&mut wire));
    let mut writer = CountingWriter::after(&mut wire, u64::MAX - 1);
    assert!(rt; sends(&mut writer, b"xyz", Ok(()), u64::MAX));
    assert!(rt; wire.taken() == b"abcdexyz".as_slice());
}

/// A table of two rows, of which the second may not be given.
#[derive(Drop)]
struct Letters {
    alloc: Global,
    is_whole: bool,
}

impl RowSource for Letters {
    type Fault = ();

    ghost use Rattle.std.specs.Prelude.{⊤};
    ghost use Rattle.std.proofs.Common.{arith};

    ghost table = { λ _. record { header = 104 ∷ []; row = λ _. 114 ∷ []; rows = 2; longest = 1 } };

    ghost HasGiven = { λ _ _ _. ⊤ };

    ghost HasFailed = { λ _ _ _ _. ⊤ };

    fn header(&self) -> &[u8] {
        b"h"
    }

    fn count(&self) -> u32 {
        2
    }

    fn row(&mut self, place: u32) -> Result<Vec<u8>, ()> {
        if place > 0 && !self.is_whole {
            return Err(());
        }
        let mut text = Vec::new(self.alloc);
        match text.push(b'r') {
            Ok(()) => Ok(text),
            Err(_) => Err(()),
        }
    }

    ghost begins = { λ _. tt };

    ghost fits = { λ _. Prim.omega arith };
}

/// Writes the table of letters over a wire.
fn send_letters(alloc: Global, is_whole: bool, wire: &mut FaultyWire) -> Result<(), RowsFault<()>> {
    let mut writer = CountingWriter::new(wire);
    let mut rows = Letters { alloc, is_whole };
    send_rows::<PlainRows, Letters, FaultyWire>(&mut rows, &mut writer)
}

/// Whether these bytes of the table are written over a wire with this room, and how that ends.
fn is_sent(
    alloc: Global,
    is_whole: bool,
    room: usize,
    bytes: &[u8],
    end: Result<(), RowsFault<()>>,
) -> bool {
    let mut wire = FaultyWire::new(alloc, Vec::new(alloc), 9, room, 0);
    send_letters(alloc, is_whole, &mut wire) == end && wire.taken() == bytes
}

#[test]
fn a_table_is_sent_row_by_row(rt: HostRuntime) {
    let refused = RowsFault::Write(Sent { sent: 2 });
    assert!(rt; is_sent(rt.alloc(), true, 9, b"hrr", Ok(())));
    assert!(rt; is_sent(rt.alloc(), true, 2, b"hr", Err(refused)));
    assert!(rt; is_sent(rt.alloc(), false, 9, b"hr", Err(RowsFault::Row(()))));
}
