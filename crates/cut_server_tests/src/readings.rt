//! Single messages, their faults, and what is printed of these.

use cut_session::{EndFault, Kind, Message, Payload, Reader, Side, StreamFault};
use std::alloc::{AllocError, Global};
use std::test::Fail;

/// Requests, the place of the byte at which their fault is reported, and what is reported at their end.
type FaultRow = (&'static [u8], Option<usize>, Result<(), EndFault>);

const FAULTS: &[FaultRow] = &[
    (b"XQ\0\0\0\0", Some(0), BAD_KIND),
    (b"R\0\x01\0\x01Q\0\0\0\0", Some(4), TOO_LONG),
    (b"S\0\0\0\x03", Some(4), BAD_LENGTH),
    (b"", None, Ok(())),
    (b"R\0", None, Err(EndFault::Truncated)),
];

const BAD_KIND: Result<(), EndFault> = Err(EndFault::Stream(StreamFault::BadKind));

const TOO_LONG: Result<(), EndFault> = Err(EndFault::Stream(StreamFault::TooLong));

const BAD_LENGTH: Result<(), EndFault> = Err(EndFault::Stream(StreamFault::BadLength));

/// After which of these bytes a reader first reports a fault.
fn fault_in(alloc: Global, reader: &mut Reader, bytes: &[u8]) -> Result<Option<usize>, AllocError> {
    let mut place = None;
    for (i, byte) in bytes.iter().enumerate() {
        let is_faulty = reader.feed(alloc, &[*byte])?.fault.is_some();
        if is_faulty && place.is_none() {
            place = Some(i);
        }
    }
    Ok(place)
}

/// Whether the fault of a row is reported so.
fn is_reported(alloc: Global, row: &FaultRow) -> Result<bool, AllocError> {
    let (bytes, place, end) = row;
    let mut reader = Reader::requests(alloc);
    let found = fault_in(alloc, &mut reader, bytes)?;
    Ok(found == *place && reader.finish() == *end)
}

#[test]
fn a_fault_is_reported_at_its_first_byte(rt: HostRuntime) -> Result<(), Fail> {
    for row in FAULTS {
        assert!(rt; is_reported(rt.alloc(), row)?);
    }
    Ok(())
}

/// Whether the first message of some replies is of this kind, and carries this payload.
fn is_carried(alloc: Global, bytes: &[u8], kind: Kind, payload: &[u8]) -> Result<bool, AllocError> {
    let mut reader = Reader::replies(alloc);
    let fed = reader.feed(alloc, bytes)?;
    let Some(message) = fed.messages.into_iter().next() else {
        return Ok(false);
    };
    let Message {
        kind: found,
        payload: carried,
    } = message;
    let carried = Payload::from_vec(carried.into_vec());
    Ok(found == kind && carried.as_slice() == payload)
}

#[test]
fn messages_carry_their_payloads(rt: HostRuntime) -> Result<(), Fail> {
    let alloc = rt.alloc();
    assert!(rt; is_carried(alloc, b"T\0\0\0\x03a,\nZ", Kind::Row, b"a,\n")?);
    assert!(rt; is_carried(alloc, b"E\0\0\0\x02\0\x1d", Kind::Fault, b"\0\x1d")?);
    Ok(())
}

/// Faults, each with its text.
const TEXTS: &[(EndFault, &str)] = &[
    (EndFault::Stream(StreamFault::BadKind), "40 BadKind"),
    (EndFault::Stream(StreamFault::TooLong), "41 TooLong"),
    (EndFault::Truncated, "42 Truncated"),
    (EndFault::Stream(StreamFault::BadLength), "45 BadLength"),
];

/// Whether each fault is printed as its text.
fn are_printed(alloc: Global) -> Result<bool, AllocError> {
    for (fault, text) in TEXTS {
        if fault.to_string(alloc)?.as_str() != *text {
            return Ok(false);
        }
    }
    Ok(StreamFault::TooLong.to_string(alloc)?.as_str() == "41 TooLong")
}

#[test]
fn faults_are_printed(rt: HostRuntime) -> Result<(), Fail> {
    assert!(rt; are_printed(rt.alloc())?);
    assert!(rt; Side::Replies.kind_at(b'S') == Some(Kind::Count));
    assert!(rt; Side::Replies.kind_at(b'Q').is_none() && Kind::Count.byte() == b'S');
    Ok(())
}
