//! Sessions over wires in memory, in halls whose studies are done.

use crate::asking::{COUNT, FIRST, PLAN, SECOND, joined};
use crate::halls::{House, serve};
use cut_book::NoShelf;
use cut_session::{SessionEnd, SessionFault};
use cut_wires::{FaultyWire, Sent, Wire};
use std::alloc::Global;
use std::sync::Wait;
use std::test::Fail;

/// Another study: one trial with a liar in place of the failed process.
pub(crate) const OTHER: &[u8] =
    br#"{"copies":1,"dead":"silent","f":[0],"faults":"crash","h":[1],"implicit":true,"k":[1],"l":[1],"liars":1,"links":0,"nodes":5,"repeats":1,"seed":"0000000000000000000000000000000000000000000000000000000000000000","version":1}"#;

/// What is sent before either plan, then the question for the count of slot 0, and that nothing follows.
pub(crate) const SUBMIT: &[u8] = b"R\0\0\0\xdd";

pub(crate) const ASK: &[u8] = b"S\0\0\0\x04\0\0\0\0";

pub(crate) const QUIT: &[u8] = b"Q\0\0\0\0";

/// A hall whose only slot has the study of the exchange, which is done.
pub(crate) const HOUSE: House = House {
    slots: 1,
    size: 2,
    pieces: 1,
};

/// The requests of the whole exchange, 240 bytes, and its replies, 126 bytes.
#[derive(Drop)]
struct Exchange {
    sent: Vec<u8>,
    replies: Vec<u8>,
}

fn whole_exchange(alloc: Global) -> Result<Exchange, Fail> {
    let sent = joined(alloc, &[SUBMIT, PLAN, ASK, QUIT])?;
    let replies = joined(alloc, &[FIRST, SECOND, COUNT])?;
    Ok(Exchange { sent, replies })
}

/// A session of the exchange: how many bytes of its requests come, one by one, for how many its wire has room, and the
/// number of the read that fails; then how it ends, and how many bytes of the replies its wire takes, with which frame
/// after them.
#[derive(Clone, Copy)]
struct Row {
    cut: usize,
    room: usize,
    read: u64,
    end: SessionEnd,
    before: usize,
    frame: &'static [u8],
}

/// One that has all requests, and in which no call fails.
const WHOLE: Row = Row {
    cut: 240,
    room: 1000,
    read: 0,
    end: SessionEnd::Quit,
    before: 126,
    frame: b"",
};

/// Whether the session of a row goes so.
fn is_right<R: Wait>(rt: &R, alloc: Global, exchange: &Exchange, row: &Row) -> Result<bool, Fail> {
    let sent = exchange.sent.as_slice();
    let input = Vec::from_slice(alloc, sent.get(..row.cut).unwrap_or_default())?;
    let mut wire = FaultyWire::new(alloc, input, 1, row.room, row.read);
    let end = serve(rt, alloc, HOUSE, PLAN, &NoShelf, &mut wire)?;
    Ok(end == row.end && is_taken(wire.taken(), exchange.replies.as_slice(), row))
}

/// Whether a wire took as many bytes of the replies as a row says, and its frame after them.
fn is_taken(taken: &[u8], replies: &[u8], row: &Row) -> bool {
    match replies.get(..row.before) {
        Some(before) => taken.strip_prefix(before) == Some(row.frame),
        None => false,
    }
}

#[test]
fn the_slots_are_full_for_another_plan(rt: HostRuntime) -> Result<(), Fail> {
    let alloc = rt.alloc();
    let full: &[u8] = b"E\0\0\0\x02\0\x1d";
    let exchange = Exchange {
        sent: joined(alloc, &[SUBMIT, PLAN, SUBMIT, OTHER, SUBMIT, PLAN])?,
        replies: joined(alloc, &[FIRST, SECOND, full, FIRST, SECOND])?,
    };
    let row = Row {
        cut: exchange.sent.len(),
        before: exchange.replies.len(),
        end: SessionEnd::EndOfInput,
        ..WHOLE
    };
    assert!(rt; is_right(&rt, alloc, &exchange, &row)?);
    Ok(())
}

/// The frame which says that a read failed, and that which says that the input ended inside a message.
const UNREAD: &[u8] = b"E\0\0\0\x02\0\x2b";

const CUT: &[u8] = b"E\0\0\0\x02\0\x2a";

/// How the session of the exchange goes whose wire has room for this many bytes.
fn in_room(room: usize) -> Row {
    Row {
        room,
        before: room,
        end: SessionEnd::Write(Sent { sent: room as u64 }),
        ..WHOLE
    }
}

/// How that goes of which the read of this number fails.
fn after_read(read: u64) -> Row {
    let before = match read {
        1..=226 => 0,
        227..=235 => 113,
        _ => 126,
    };
    Row {
        read,
        before,
        end: SessionEnd::Fault(SessionFault::Read),
        frame: UNREAD,
        ..WHOLE
    }
}

/// Whether a session ends so whose read fails, and whose wire has room for this many bytes.
fn is_unread<R: Wait>(rt: &R, alloc: Global, room: usize) -> Result<bool, Fail> {
    let mut wire = FaultyWire::new(alloc, joined(alloc, &[ASK])?, 1, room, 9);
    let house = House { pieces: 0, ..HOUSE };
    let end = serve(rt, alloc, house, b"", &NoShelf, &mut wire)?;
    let failed = SessionEnd::Write(Sent { sent: room as u64 });
    Ok(end == failed && Some(wire.taken()) == UNREAD.get(..room) && wire.failures() == 2)
}

#[test]
fn a_failed_write_of_the_last_frame_is_reported(rt: HostRuntime) -> Result<(), Fail> {
    for room in 0..7 {
        assert!(rt; is_unread(&rt, rt.alloc(), room)?);
    }
    Ok(())
}

/// How the session of the exchange goes whose input ends after this many bytes.
fn after_cut(cut: usize) -> Row {
    let between = |before| Row {
        cut,
        before,
        end: SessionEnd::EndOfInput,
        ..WHOLE
    };
    let inside = |before| Row {
        cut,
        before,
        end: SessionEnd::Fault(SessionFault::Truncated),
        frame: CUT,
        ..WHOLE
    };
    match cut {
        0 => between(0),
        1..=225 => inside(0),
        226 => between(113),
        227..=234 => inside(113),
        235 => between(126),
        236..=239 => inside(126),
        _ => WHOLE,
    }
}

/// A session of the exchange of each kind: each write fails in turn, then each read, and the input ends after each of
/// its bytes, which it may between messages only.
fn exchange_row(number: usize) -> Row {
    match number {
        0..=125 => in_room(number),
        126..=365 => after_read(number as u64 - 125),
        _ => after_cut(number.saturating_sub(366)),
    }
}

#[test]
fn each_failure_of_a_wire_is_reported(rt: HostRuntime) -> Result<(), Fail> {
    let alloc = rt.alloc();
    let exchange = whole_exchange(alloc)?;
    for number in 0..607 {
        let row = exchange_row(number);
        assert!(rt; is_right(&rt, alloc, &exchange, &row)?, "row {number}");
    }
    Ok(())
}
