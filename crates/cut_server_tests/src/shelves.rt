//! Studies that don't come, as their shelf gives no disk, or as a disk fails, or as nobody works.
ghost use Rattle.std.specs.Prelude.{true, ◌≡◌};

use crate::asking::joined;
use crate::halls::{House, serve, wire_over};
use cut_book::{Shelf, ShelfFault};
use cut_disks::{FaultyDisk, Tear};
use cut_plan::Plan;
use cut_session::SessionEnd;
use std::alloc::Global;
use std::sync::Wait;
use std::test::Fail;

/// What is sent before the plan of a study of two cells of three trials each, which was computed elsewhere, and then the
/// question for the count of slot 0.
const SUBMIT: &[u8] = b"R\0\0\0\xfc";

const PLAN: &[u8] =
    br#"{"copies": 1, "dead": "silent", "implicit": false, "nodes": 8, "repeats": 3, "seed": "7C42865D5FcADB9d8fC95Df94bf09DC9aDCb1e5Ae1bD4245b2f19D7C4A270fDD", "version": 1, "faults": "crash", "k": [1], "h": [1], "l": [1], "f": [3, 4], "liars": 1, "links": 2}"#;

const COUNT: &[u8] = b"S\0\0\0\x04\0\0\0\0";

/// The answer: its header takes 77 bytes, and the first line 39 more.
const ANSWER: &[u8] =
    b"T\0\0\0\x48k,h,l,f,trials,receivers,conflicts,silent,extra,votes,decided,right,ppm\nT\0\0\0\x221,1,1,3,3,15,15,0,4,6,0,0,1000000\nT\0\0\0\x221,1,1,4,3,12,12,0,4,9,0,0,1000000\nZ\0\0\0\0";

/// Whether a session that asks for the study and then for its count is answered so, in a hall of one slot, in which this
/// many pieces of the study were worked on.
fn is_answered<S: Shelf<FaultyDisk>, R: Wait>(
    rt: &R,
    alloc: Global,
    pieces: u64,
    shelf: &S,
    replies: &[&[u8]],
) -> Result<bool, Fail>
    requires { S.is_true shelf.now ≡ true }
{
    let mut wire = wire_over(alloc, joined(alloc, &[SUBMIT, PLAN, COUNT])?, 60);
    let house = House {
        slots: 1,
        size: 3,
        pieces,
    };
    let end = serve(rt, alloc, house, PLAN, shelf, &mut wire)?;
    Ok(end == SessionEnd::EndOfInput && wire.taken() == joined(alloc, replies)?.as_slice())
}

/// A shelf that gives no disk.
#[derive(Clone, Copy)]
struct ClosedShelf {
    fault: ShelfFault,
}

impl Shelf<FaultyDisk> for ClosedShelf {
    ghost use Rattle.std.specs.Prelude.{true};

    ghost is_true = { λ _. true };

    fn open(&self, _alloc: Global, _plan: &Plan) -> Result<Option<FaultyDisk>, ShelfFault> {
        Err(self.fault)
    }
}

/// Why a shelf gives no disk, and the reply then.
const CLOSED: &[(ShelfFault, &[u8])] = &[
    (ShelfFault::Open, b"E\0\0\0\x02\0\x1e"),
    (ShelfFault::Memory, b"E\0\0\0\x02\0\x20"),
];

#[test]
fn a_study_without_its_disk_is_refused(rt: HostRuntime) -> Result<(), Fail> {
    for (fault, reply) in CLOSED {
        let shelf = ClosedShelf { fault: *fault };
        let replies = [*reply, b"S\0\0\0\x08\0\0\0\0\0\0\0\0"];
        assert!(rt; is_answered(&rt, rt.alloc(), 0, &shelf, &replies)?);
    }
    Ok(())
}

/// A shelf whose disks fail in the call with this number.
#[derive(Clone, Copy)]
struct FaultyShelf {
    fail_at: u64,
}

impl Shelf<FaultyDisk> for FaultyShelf {
    ghost use Rattle.std.specs.Prelude.{true};

    ghost is_true = { λ _. true };

    fn open(&self, alloc: Global, _plan: &Plan) -> Result<Option<FaultyDisk>, ShelfFault> {
        match FaultyDisk::of(alloc, Vec::new(alloc), self.fail_at, Tear::Nothing) {
            Ok(disk) => {
                disk.arm();
                Ok(Some(disk))
            }
            Err(_) => Err(ShelfFault::Memory),
        }
    }
}

/// How many of the study's two pieces were worked on, the number of the call in which its disk fails, how many bytes of
/// the whole answer come, and what says why no more do, with the count of trials.
type Row = (u64, u64, usize, &'static [u8]);

/// Eleven calls open the disk, and each append makes four.
const BROKEN_OFF: &[Row] = &[
    (2, 0, 160, b"S\0\0\0\x08\0\0\0\0\0\0\0\x06"),
    (1, 0, 116, b"E\0\0\0\x02\0\x22S\0\0\0\x08\0\0\0\0\0\0\0\x03"),
    (1, 12, 77, b"E\0\0\0\x02\0\x1eS\0\0\0\x08\0\0\0\0\0\0\0\0"),
    (1, 15, 77, b"E\0\0\0\x02\0\x1eS\0\0\0\x08\0\0\0\0\0\0\0\0"),
    (
        2,
        16,
        116,
        b"E\0\0\0\x02\0\x1eS\0\0\0\x08\0\0\0\0\0\0\0\x03",
    ),
];

#[test]
fn a_study_may_break_off_after_any_line(rt: HostRuntime) -> Result<(), Fail> {
    for (pieces, fail_at, bytes, last) in BROKEN_OFF {
        let shelf = FaultyShelf { fail_at: *fail_at };
        let replies = [ANSWER.get(..*bytes).unwrap_or(ANSWER), last];
        assert!(rt;
            is_answered(&rt, rt.alloc(), *pieces, &shelf, &replies)?,
            "{fail_at}"
        );
    }
    Ok(())
}
