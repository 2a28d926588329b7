//! Sessions for which an allocation may be refused. If none is, each of them is whole; the test also holds where any
//! one allocation of its sessions is refused, and is meant to be run so by hand.

use crate::asking::{COUNT, FIRST, PLAN, SECOND, joined};
use crate::halls::{serve, wire_over};
use crate::serving::{ASK, HOUSE, QUIT, SUBMIT};
use cut_book::NoShelf;
use cut_session::{SessionEnd, SessionFault};
use std::alloc::Global;
use std::sync::Wait;
use std::test::Fail;

/// The frame that reports that memory ran out, and the count of a study whose piece was lost.
const WANT: &[u8] = b"E\0\0\0\x02\0\x20";

const NONE_COUNTED: &[u8] = b"S\0\0\0\x08\0\0\0\0\0\0\0\0";

/// How a session ended that submits a plan, asks for the count of its study, and quits.
#[derive(Clone, Copy, PartialEq, Eq)]
enum End {
    /// With the whole table and the count of its two trials.
    Whole,
    /// As memory ran out, which was reported, or was that of the wire.
    Refused,
    /// Otherwise.
    Wrong,
}

/// Whether these replies report that memory ran out: in place of the table, or after its header.
fn reports_lack(taken: &[u8]) -> bool {
    let table = taken.strip_prefix(FIRST).unwrap_or(taken);
    match table.strip_prefix(WANT) {
        Some(count) => count == COUNT || count == NONE_COUNTED,
        None => false,
    }
}

/// How a session ended that ended so, whose wire took these bytes. The replies are those of the whole exchange.
fn end_of(end: SessionEnd, taken: &[u8], replies: &[u8]) -> End {
    match end {
        SessionEnd::Quit if taken == replies => End::Whole,
        SessionEnd::Quit if reports_lack(taken) => End::Refused,
        SessionEnd::Fault(SessionFault::Memory) if taken == WANT => End::Refused,
        SessionEnd::Write(fault)
            if replies.starts_with(taken) && fault.sent == taken.len() as u64 => { End::Refused }
        _ => End::Wrong,
    }
}

/// How a session over these requests ends, all of which come at once.
fn exchanged<R: Wait>(rt: &R, alloc: Global, sent: &[u8], replies: &[u8]) -> Result<End, Fail> {
    let mut wire = wire_over(alloc, Vec::from_slice(alloc, sent)?, 5000);
    let end = serve(rt, alloc, HOUSE, PLAN, &NoShelf, &mut wire)?;
    Ok(end_of(end, wire.taken(), replies))
}

#[test]
fn one_refused_allocation_is_reported_by_one_session(rt: HostRuntime) -> Result<(), Fail> {
    let alloc = rt.alloc();
    let sent = joined(alloc, &[SUBMIT, PLAN, ASK, QUIT])?;
    let replies = joined(alloc, &[FIRST, SECOND, COUNT])?;
    let mut refused = 0u32;
    for number in 0..3 {
        let end = exchanged(&rt, alloc, sent.as_slice(), replies.as_slice())?;
        assert!(rt; end != End::Wrong, "{number}");
        if end == End::Refused {
            refused = refused.saturating_add(1);
        }
    }
    assert!(rt; refused <= 1);
    Ok(())
}
