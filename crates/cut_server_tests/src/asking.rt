//! A client over an answer that was worked out by hand, with each call of its wires failing.

use cut_session::{AskFault, StreamFault, ask};
use cut_wires::FaultyWire;
use std::alloc::{AllocError, Global};
use std::test::Fail;

/// A study of one cell: two trials of five processes, of which one crashes.
pub(crate) const PLAN: &[u8] =
    br#"{"copies":1,"dead":"silent","f":[1],"faults":"crash","h":[1],"implicit":true,"k":[1],"l":[1],"liars":0,"links":0,"nodes":5,"repeats":2,"seed":"0000000000000000000000000000000000000000000000000000000000000000","version":1}"#;
/// Its table.
const TABLE: &[u8] =
    b"k,h,l,f,trials,receivers,conflicts,silent,extra,votes,decided,right,ppm\n1,1,1,1,2,8,0,0,0,8,2,2,0\n";

/// The frame of the table's first line, that of its second line with the one after it, and that of
/// a count.
pub(crate) const FIRST: &[u8] =
    b"T\0\0\0\x48k,h,l,f,trials,receivers,conflicts,silent,extra,votes,decided,right,ppm\n";

pub(crate) const SECOND: &[u8] = b"T\0\0\0\x1a1,1,1,1,2,8,0,0,0,8,2,2,0\nZ\0\0\0\0";

pub(crate) const COUNT: &[u8] = b"S\0\0\0\x08\0\0\0\0\0\0\0\x02";

pub(crate) fn joined(alloc: Global, parts: &[&[u8]]) -> Result<Vec<u8>, Fail> {
    let mut bytes = Vec::new(alloc);
    for part in parts {
        bytes.extend_from_slice(part)?;
    }
    Ok(bytes)
}

/// An asking: how many bytes a call of its wires moves, how many its wire takes, the number of its read that fails,
/// and how many its output takes.
#[derive(Clone, Copy)]
struct Row {
    per: usize,
    room: usize,
    read: u64,
    output: usize,
}

/// One in which no call fails.
const WHOLE: Row = Row {
    per: 7,
    room: 1000,
    read: 0,
    output: 1000,
};

/// The length of bytes that are the first ones of some parts, one after another.
pub(crate) fn prefix_len(bytes: &[u8], parts: &[&[u8]]) -> Option<usize> {
    let mut rest = bytes;
    for part in parts {
        rest = after(rest, part)?;
    }
    rest.is_empty().then_some(bytes.len())
}

/// What comes after a part in bytes that begin with it, or no bytes if they are its first ones.
fn after<'a>(bytes: &'a [u8], part: &[u8]) -> Option<&'a [u8]> {
    if part.starts_with(bytes) {
        return Some(&[]);
    }
    bytes.strip_prefix(part)
}

/// How an asking ends, and how many bytes of the request were sent, and of the table written.
type Asked = (Result<(), AskFault>, Option<usize>, Option<usize>);

/// How an asking ends.
fn asked(alloc: Global, row: &Row) -> Result<Asked, Fail> {
    let mut wire = FaultyWire::new(
        alloc,
        joined(alloc, &[FIRST, SECOND])?,
        row.per,
        row.room,
        row.read,
    );
    let mut output = FaultyWire::new(alloc, Vec::new(alloc), row.per, row.output, 0);
    let end = ask(alloc, PLAN, &mut wire, &mut output);
    Ok((
        end,
        prefix_len(wire.taken(), &[b"R\0\0\0\xdd", PLAN, b"Q\0\0\0\0"]),
        prefix_len(output.taken(), &[TABLE]),
    ))
}

/// One whose reads come byte for byte, and the next one after this many of them fails.
fn unread(bytes: usize) -> Row {
    Row {
        per: 1,
        read: (bytes as u64).saturating_add(1),
        ..WHOLE
    }
}

/// How many bytes of the table are written when this many of the answer are read.
fn written(bytes: usize) -> usize {
    match bytes {
        0..=76 => 0,
        77..=107 => 72,
        _ => 98,
    }
}

#[test]
fn each_read_that_fails_is_reported(rt: HostRuntime) -> Result<(), Fail> {
    for bytes in 0..113usize {
        let wanted = (Err(AskFault::Read), Some(231), Some(written(bytes)));
        assert!(rt; asked(rt.alloc(), &unread(bytes))? == wanted);
    }
    Ok(())
}

#[test]
fn each_write_that_fails_is_reported(rt: HostRuntime) -> Result<(), Fail> {
    for room in 0..231usize {
        let wanted = (Err(AskFault::Request), Some(room), Some(0));
        assert!(rt; asked(rt.alloc(), &Row { room, ..WHOLE })? == wanted);
    }
    for output in 0..98usize {
        let wanted = (Err(AskFault::Output), Some(231), Some(output));
        assert!(rt; asked(rt.alloc(), &Row { output, ..WHOLE })? == wanted);
    }
    assert!(rt; asked(rt.alloc(), &WHOLE)? == (Ok(()), Some(231), Some(98)));
    Ok(())
}

/// Faults, each with its text.
const TEXTS: &[(AskFault, &str)] = &[
    (AskFault::Memory, "32 Memory"),
    (AskFault::PlanTooLong, "19 PlanTooLong"),
    (AskFault::Request, "31 Write"),
    (AskFault::Output, "31 Write"),
    (AskFault::Read, "43 Read"),
    (AskFault::Endless, "43 Read"),
    (AskFault::Truncated, "42 Truncated"),
    (AskFault::Stream(StreamFault::BadLength), "45 BadLength"),
    (AskFault::Reported(29), "29 SlotsFull"),
    (AskFault::Reported(46), "46 Disagrees"),
    (AskFault::Reported(48), "48 Unknown"),
];

/// Whether each fault is printed as its text.
fn are_printed(alloc: Global) -> Result<bool, AllocError> {
    for (fault, text) in TEXTS {
        if fault.to_string(alloc)?.as_str() != *text {
            return Ok(false);
        }
    }
    Ok(true)
}

#[test]
fn faults_of_askings_are_printed(rt: HostRuntime) -> Result<(), Fail> {
    assert!(rt; are_printed(rt.alloc())?);
    Ok(())
}
