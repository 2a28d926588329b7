//! Readers and writers that do little at a time, and that fail at each of their calls in turn.

use super::{PLAN, TABLE, check, run};
use cut_commands::CliFault;
use cut_wires::{StreamWire, Wire, WireFault};
use std::alloc::{AllocError, Global};
use std::io::{self, ErrorKind, Read, Write};
use std::sync::Wait;
use std::test::Fail;
use std::thread::Threads;

/// What a device does at a call.
#[derive(Clone, Copy, Debug, PartialEq, Eq)]
pub(super) enum Act {
    Fail(ErrorKind),
    Nothing,
}

/// A device that moves at most `step` bytes a call, and at call `at`, counted from 0, does `act`.
#[derive(Drop)]
pub(super) struct Device<'a> {
    input: &'a [u8],
    pub(super) output: Vec<u8>,
    step: usize,
    calls: usize,
    at: usize,
    act: Act,
}

impl<'a> Device<'a> {
    pub(super) fn new(
        alloc: Global,
        input: &'a [u8],
        step: usize,
        at: usize,
        act: Act,
    ) -> Device<'a> {
        Device {
            input,
            output: Vec::new(alloc),
            step,
            calls: 0,
            at,
            act,
        }
    }

    /// How many of these bytes this call moves.
    fn turn(&mut self, len: usize) -> io::Result<usize> {
        let call = self.calls;
        self.calls = call.saturating_add(1);
        if call != self.at {
            return Ok(len.min(self.step));
        }
        match self.act {
            Act::Fail(kind) => Err(io::Error::from(kind)),
            Act::Nothing => Ok(0),
        }
    }
}

impl<'a> Read for Device<'a> {
    fn read(&mut self, buf: &mut [u8]) -> io::Result<usize> {
        let len = self.turn(buf.len())?.min(buf.len());
        self.input.read(&mut buf[..len])
    }
}

impl<'a> Write for Device<'a> {
    fn write(&mut self, buf: &[u8]) -> io::Result<usize> {
        let len = self.turn(buf.len())?.min(buf.len());
        self.output.write(&buf[..len])
    }

    fn flush(&mut self) -> io::Result<()> {
        self.turn(0)?;
        Ok(())
    }
}

/// Runs the plan from a reader whose call `at` fails. Whether the answer is Read, nothing is written,
/// and no call came after the one that failed.
fn stops_at_read<T: Threads + Wait + Sync>(
    rt: &T,
    alloc: Global,
    at: usize,
    kind: ErrorKind,
) -> bool {
    let mut input = Device::new(alloc, PLAN.as_bytes(), 1, at, Act::Fail(kind));
    let mut output = Vec::new(alloc);
    match run(rt, alloc, &mut input, &mut output) {
        Err(CliFault::Read) => output.is_empty() && input.calls == at.saturating_add(1),
        _ => false,
    }
}

/// How many bytes this many writes take, of at most `step` bytes each and none over the end of a line: the table
/// has a line of 72 bytes and one of 26.
fn taken_by(step: usize, writes: usize) -> usize {
    let first = 72usize.div_ceil(step.max(1));
    match writes.checked_sub(first) {
        None => writes.saturating_mul(step).min(72),
        Some(more) => more.saturating_mul(step).min(26) + 72,
    }
}

/// Writes the plan's table to a writer whose call `at` does `act`. Whether the answer is Write with
/// the bytes that the writer took, which are the table's first, and no call came after that one.
fn stops_at_write<T: Threads + Wait + Sync>(
    rt: &T,
    alloc: Global,
    step: usize,
    at: usize,
    act: Act,
) -> bool {
    let taken = taken_by(step, at);
    let mut output = Device::new(alloc, b"", step, at, act);
    match run(rt, alloc, PLAN.as_bytes(), &mut output) {
        Err(CliFault::Write(fault)) => {
            fault.sent == taken as u64
                && Some(output.output.as_slice()) == TABLE.as_bytes().get(..taken)
                && output.calls == at.saturating_add(1)
        }
        _ => false,
    }
}

#[test]
fn each_read_fails(rt: HostRuntime) {
    // A call for each byte, and one that finds the end.
    for at in 0..PLAN.len() + 1 {
        for kind in [ErrorKind::Other, ErrorKind::Interrupted] {
            assert!(rt; stops_at_read(&rt, rt.alloc(), at, kind), "read {at}");
        }
    }
}

#[test]
fn each_write_fails(rt: HostRuntime) {
    let acts = [
        Act::Fail(ErrorKind::Other),
        Act::Fail(ErrorKind::Interrupted),
        Act::Nothing,
    ];
    for act in acts {
        // The table has 98 bytes.
        for (step, calls) in [(1, 98), (7, 15)] {
            for at in 0..calls {
                assert!(rt;
                    stops_at_write(&rt, rt.alloc(), step, at, act),
                    "write {at}"
                );
            }
        }
    }
}

/// A device that gives the plan, or takes what is written, byte for byte, and never fails.
fn slow_device(alloc: Global) -> Device<'static> {
    Device::new(alloc, PLAN.as_bytes(), 1, usize::MAX, Act::Nothing)
}

/// Whether a device took these bytes, one in a call.
fn has_taken(device: &Device<'_>, bytes: &[u8]) -> bool {
    device.output.as_slice() == bytes && device.calls == bytes.len()
}

#[test]
fn a_table_is_written_byte_for_byte(rt: HostRuntime) -> Result<(), Fail> {
    let mut input = slow_device(rt.alloc());
    let mut output = slow_device(rt.alloc());
    run(&rt, rt.alloc(), &mut input, &mut output)?;
    assert!(rt; has_taken(&output, TABLE.as_bytes()) && input.calls == PLAN.len() + 1);
    Ok(())
}

#[test]
fn a_plan_is_checked_byte_for_byte(rt: HostRuntime) -> Result<(), Fail> {
    let mut input = slow_device(rt.alloc());
    let mut output = slow_device(rt.alloc());
    check(rt.alloc(), &mut input, &mut output)?;
    assert!(rt; has_taken(&output, b"cells 1\ntrials 2\nquorum 4\n"));
    Ok(())
}

#[test]
fn reads_no_further_than_the_limit(rt: HostRuntime) -> Result<(), Fail> {
    let alloc = rt.alloc();
    let blanks = vec![in alloc; b' '; 70_000]?;
    let mut input = Device::new(alloc, &blanks, 1_000, usize::MAX, Act::Nothing);
    let mut output = Vec::new(alloc);
    assert!(rt; run(&rt, alloc, &mut input, &mut output).is_err());
    assert_eq!(rt; input.input.len(), 70_000 - 65_537);
    assert!(rt; output.is_empty());
    Ok(())
}

/// Every kind of failure that a device can report.
const KINDS: &[ErrorKind] = &[
    ErrorKind::NotFound,
    ErrorKind::PermissionDenied,
    ErrorKind::ConnectionRefused,
    ErrorKind::ConnectionReset,
    ErrorKind::HostUnreachable,
    ErrorKind::NetworkUnreachable,
    ErrorKind::ConnectionAborted,
    ErrorKind::NotConnected,
    ErrorKind::AddrInUse,
    ErrorKind::AddrNotAvailable,
    ErrorKind::NetworkDown,
    ErrorKind::BrokenPipe,
    ErrorKind::AlreadyExists,
    ErrorKind::WouldBlock,
    ErrorKind::NotADirectory,
    ErrorKind::IsADirectory,
    ErrorKind::DirectoryNotEmpty,
    ErrorKind::ReadOnlyFilesystem,
    ErrorKind::FilesystemLoop,
    ErrorKind::StaleNetworkFileHandle,
    ErrorKind::InvalidInput,
    ErrorKind::InvalidData,
    ErrorKind::TimedOut,
    ErrorKind::WriteZero,
    ErrorKind::StorageFull,
    ErrorKind::NotSeekable,
    ErrorKind::QuotaExceeded,
    ErrorKind::FileTooLarge,
    ErrorKind::ResourceBusy,
    ErrorKind::ExecutableFileBusy,
    ErrorKind::Deadlock,
    ErrorKind::CrossesDevices,
    ErrorKind::TooManyLinks,
    ErrorKind::InvalidFilename,
    ErrorKind::ArgumentListTooLong,
    ErrorKind::Interrupted,
    ErrorKind::Unsupported,
    ErrorKind::UnexpectedEof,
    ErrorKind::OutOfMemory,
    ErrorKind::InProgress,
    ErrorKind::Other,
];

/// Whether a wire over a reader that fails at its second call of three makes each call once, and counts and
/// reports that failure alone.
fn counts_a_read(alloc: Global, kind: ErrorKind, size: usize) -> Result<bool, AllocError> {
    let mut buffer = vec![in alloc; 7u8; size]?;
    if buffer.is_empty() {
        return Ok(false);
    }
    let bytes = vec![in alloc; 9u8; 70_000]?;
    let mut device = Device::new(alloc, &bytes, 70_000, 1, Act::Fail(kind));
    let mut wire = StreamWire::new(&mut device, io::sink());
    let first = wire.read(&mut buffer);
    let second = wire.read(&mut buffer);
    let third = wire.read(&mut buffer);
    let failures = wire.failures();
    drop(wire);
    Ok(
        first == Ok(size)
            && second == Err(WireFault)
            && third.is_ok()
            && failures == 1
            && device.calls == 3,
    )
}

/// The same of a writer.
fn counts_a_write(alloc: Global, kind: ErrorKind, size: usize) -> Result<bool, AllocError> {
    let buffer = vec![in alloc; 7u8; size]?;
    let mut device = Device::new(alloc, b"", 70_000, 1, Act::Fail(kind));
    let mut wire = StreamWire::new(io::empty(), &mut device);
    let first = wire.write(&buffer);
    let second = wire.write(&buffer);
    let third = wire.write(&buffer);
    let failures = wire.failures();
    drop(wire);
    Ok(
        first == Ok(size)
            && second == Err(WireFault)
            && third == Ok(size)
            && failures == 1
            && device.calls == 3,
    )
}

#[test]
fn calls_that_fail_are_counted(rt: HostRuntime) -> Result<(), Fail> {
    let alloc = rt.alloc();
    for kind in KINDS {
        for size in [1, 4_096, 65_537] {
            assert!(rt; counts_a_read(alloc, *kind, size)?, "read {kind:?}");
            assert!(rt; counts_a_write(alloc, *kind, size)?, "write {kind:?}");
        }
    }
    Ok(())
}

#[test]
fn a_write_that_takes_nothing_is_a_failure(rt: HostRuntime) {
    let alloc = rt.alloc();
    let mut device = Device::new(alloc, b"", 2, 1, Act::Nothing);
    let mut wire = StreamWire::new(io::empty(), &mut device);
    assert_eq!(rt; wire.write(b"table"), Ok(2));
    assert_eq!(rt; wire.write(b"ble"), Err(WireFault));
    assert_eq!(rt; wire.write(b""), Ok(0));
    assert_eq!(rt; wire.failures(), 1);
}
