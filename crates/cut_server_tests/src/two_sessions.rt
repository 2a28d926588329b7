//! Two sessions at once in one hall, in threads of their own beside a worker: what a session's wire takes is no matter
//! of the other's.

use crate::asking::{FIRST, PLAN, SECOND, joined};
use crate::serving::{OTHER, SUBMIT};
use crate::worker::{Served, serve_two};
use cut_session::SessionEnd;
use cut_wires::{FaultyWire, Sent};
use std::alloc::Global;
use std::sync::Wait;
use std::test::Fail;
use std::thread::Threads;

/// The replies to the other study below the header: its line, in which one liar is believed, and the end.
const OTHER_SECOND: &[u8] = b"T\0\0\0\x1a1,1,1,0,1,5,0,0,5,5,1,0,0\nZ\0\0\0\0";

/// How two sessions end, of which the first asks for the study of two trials over a wire with room for this many bytes,
/// and the second for the other study.
fn serve_both<R>(rt: &R, alloc: Global, rooms: (usize, usize)) -> Result<Served, Fail>
where
    R: Threads + Wait + Sync,
{
    let sent = joined(alloc, &[SUBMIT, PLAN])?;
    let first = FaultyWire::new(alloc, sent, 5000, rooms.0, 0);
    let sent = joined(alloc, &[SUBMIT, OTHER])?;
    let second = FaultyWire::new(alloc, sent, 5000, rooms.1, 0);
    serve_two(rt, alloc, first, second)
}

/// Whether the session of the client of this number ended as it should over a wire with so much room, which takes the
/// first bytes of the replies.
fn is_right(served: &Served, number: u64, replies: &[u8], room: usize) -> bool {
    let end = if room < replies.len() {
        SessionEnd::Write(Sent { sent: room as u64 })
    } else {
        SessionEnd::EndOfInput
    };
    let taken = replies.get(..room).unwrap_or(replies);
    served.end_of(number) == Some((end, taken))
}

#[test]
fn a_wire_that_fails_does_not_disturb_another_session(rt: HostRuntime) -> Result<(), Fail> {
    let alloc = rt.alloc();
    let replies = joined(alloc, &[FIRST, SECOND])?;
    let others = joined(alloc, &[FIRST, OTHER_SECOND])?;
    assert!(rt; replies.len() == 113 && others.len() == 113);
    for rooms in [(1000, 1000), (7, 1000), (1000, 7), (0, 112), (100, 113)] {
        for _ in 0..5 {
            let served = serve_both(&rt, alloc, rooms)?;
            assert!(rt;
                is_right(&served, 0, replies.as_slice(), rooms.0)
                    && is_right(&served, 1, others.as_slice(), rooms.1),
                "{rooms:?}"
            );
        }
    }
    Ok(())
}
