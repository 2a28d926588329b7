//! Asking for a table: answers that were worked out by hand, and what is reported of each.

use super::{PLAN, TABLE};
use cut_commands::{CliFault, PlanSource, ask};
use cut_files::MemoryFiles;
use cut_sockets::MemorySockets;
use cut_wires::{FaultyWire, MemoryWire, Wire};
use std::alloc::{AllocError, Global};
use std::test::Fail;

/// The frames of the plan's table: its first line, its second line, and that it is whole.
const ANSWER: &[u8] =
    b"T\0\0\0\x48k,h,l,f,trials,receivers,conflicts,silent,extra,votes,decided,right,ppm\nT\0\0\0\x1a1,1,1,1,2,8,0,0,0,8,2,2,0\nZ\0\0\0\0";

/// Where the server's socket is.
const SOCKET: &str = "cutlab.sock";

/// A wire that gives these bytes, and moves no more than this many in a call.
fn wire_of(alloc: Global, bytes: &[u8], per: usize) -> Result<MemoryWire, AllocError> {
    Ok(MemoryWire::new(alloc, Vec::from_slice(alloc, bytes)?, per))
}

/// A server that replies so, at its socket.
fn server_of(alloc: Global, answer: &[u8], per: usize) -> Result<MemorySockets, AllocError> {
    let mut sockets = MemorySockets::new(alloc);
    sockets.put(SOCKET, wire_of(alloc, answer, per)?)?;
    Ok(sockets)
}

/// What the server was sent, if its connection has ended.
fn sent_to(sockets: &MemorySockets) -> Option<&[u8]> {
    Some(sockets.wire(SOCKET)?.taken())
}

/// Asks the server at a path for the table of the plan that a wire gives.
fn ask_at<C: Wire + Drop>(
    alloc: Global,
    sockets: &mut MemorySockets<C>,
    wire: &mut MemoryWire,
    path: &str,
) -> Result<(), CliFault> {
    ask(sockets, alloc, PlanSource::<MemoryFiles>::Input, wire, path)
}

#[test]
fn a_table_is_asked_for(rt: HostRuntime) -> Result<(), Fail> {
    let alloc = rt.alloc();
    let mut wire = wire_of(alloc, PLAN.as_bytes(), 100)?;
    let mut sockets = server_of(alloc, ANSWER, 100)?;
    assert!(rt; ask_at(alloc, &mut sockets, &mut wire, SOCKET).is_ok());
    assert!(rt; wire.taken() == TABLE.as_bytes());
    let sent = sent_to(&sockets).unwrap_or(&[]);
    assert!(rt; sent.starts_with(b"R\0\0\0\xdd") && sent.ends_with(b"}Q\0\0\0\0"));
    Ok(())
}

/// How a command `ask` ends: its text and status, and how many bytes the server's wire takes.
type AskEnd = (&'static str, u8, usize);

/// Whether it ends so to ask for the table of a text if these bytes are answered, with nothing written.
fn ends_so(alloc: Global, text: &[u8], answer: &[u8], wanted: &AskEnd) -> Result<bool, Fail> {
    let mut wire = wire_of(alloc, text, 4096)?;
    let mut sockets = server_of(alloc, answer, 7)?;
    let ended = ask_at(alloc, &mut sockets, &mut wire, SOCKET);
    let (line, status, count) = *wanted;
    let sent = sent_to(&sockets).map(|bytes| bytes.len());
    let is_taken = wire.taken().is_empty() && sent == Some(count);
    Ok(is_taken && is_fault(alloc, ended, line, status)?)
}

/// Whether a command ended with the fault of this line and status.
fn is_fault(
    alloc: Global,
    ended: Result<(), CliFault>,
    line: &str,
    status: u8,
) -> Result<bool, AllocError> {
    match ended {
        Ok(()) => Ok(false),
        Err(fault) => Ok(fault.status() == status && fault.to_string(alloc)?.as_str() == line),
    }
}

/// Answers of servers, and how it ends to ask for the plan's table where they come.
const FAULTS: &[(&[u8], AskEnd)] = &[
    (b"E\0\0\0\x02\0\x08", ("cutlab: fault 8 NoCell", 3, 231)),
    (b"E\0\0\0\x02\0\x1d", ("cutlab: fault 29 SlotsFull", 4, 231)),
    (b"E\0\0\0\x02\0\x20", ("cutlab: fault 32 Memory", 5, 231)),
    (
        b"E\0\0\0\x02\xff\xff",
        ("cutlab: fault 65535 Unknown", 4, 231),
    ),
    (b"E\0\0\0\x02\0\x23", ("cutlab: fault 35 Unknown", 4, 231)),
    (b"", ("cutlab: fault 42 Truncated", 4, 231)),
    (b"X", ("cutlab: fault 40 BadKind", 4, 231)),
    (b"Z\0\0\0\x01", ("cutlab: fault 45 BadLength", 4, 231)),
];

#[test]
fn a_fault_from_the_server_is_reported(rt: HostRuntime) -> Result<(), Fail> {
    for (number, (answer, wanted)) in FAULTS.iter().enumerate() {
        assert!(rt;
            ends_so(rt.alloc(), PLAN.as_bytes(), answer, wanted)?,
            "{number}"
        );
    }
    Ok(())
}

#[test]
fn a_text_that_is_too_long_is_not_sent(rt: HostRuntime) -> Result<(), Fail> {
    let blanks = vec![in rt.alloc(); b' '; 65_537]?;
    let wanted = ("cutlab: fault 19 PlanTooLong", 3, 0);
    assert!(rt; ends_so(rt.alloc(), &blanks, ANSWER, &wanted)?);
    Ok(())
}

#[test]
fn nothing_is_read_if_there_is_no_server(rt: HostRuntime) -> Result<(), Fail> {
    let alloc = rt.alloc();
    let mut wire = wire_of(alloc, PLAN.as_bytes(), 100)?;
    let mut sockets = server_of(alloc, ANSWER, 100)?;
    let ended = ask_at(alloc, &mut sockets, &mut wire, "other.sock");
    assert!(rt; is_fault(alloc, ended, "cutlab: fault 43 Read", 4)?);
    assert!(rt; wire.taken().is_empty() && sent_to(&sockets) == Some(b"".as_slice()));
    assert!(rt; ask_at(alloc, &mut sockets, &mut wire, SOCKET).is_ok());
    assert!(rt; wire.taken() == TABLE.as_bytes());
    Ok(())
}

/// Whether it ends with this line if the server's wire takes so many bytes and fails at the read of this number, and
/// writes nothing.
fn fails_so(alloc: Global, room: usize, fail_read: u64, line: &str) -> Result<bool, AllocError> {
    let mut wire = wire_of(alloc, PLAN.as_bytes(), 4096)?;
    let answer = Vec::from_slice(alloc, ANSWER)?;
    let mut sockets = MemorySockets::new(alloc);
    let server = FaultyWire::new(alloc, answer, 4096, room, fail_read);
    sockets.put(SOCKET, server)?;
    let ended = ask_at(alloc, &mut sockets, &mut wire, SOCKET);
    Ok(wire.taken().is_empty() && is_fault(alloc, ended, line, 4)?)
}

#[test]
fn a_connection_that_fails_is_reported(rt: HostRuntime) -> Result<(), Fail> {
    assert!(rt; fails_so(rt.alloc(), 100, 0, "cutlab: fault 31 Write")?);
    assert!(rt; fails_so(rt.alloc(), 231, 1, "cutlab: fault 43 Read")?);
    Ok(())
}
