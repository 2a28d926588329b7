//! Runs of the machine that were worked by hand.

ghost use Rattle.std.specs.Prelude.{IfOk};
ghost use Rattle.cut_ledger.specs.Machine.{IsSizedEvent};

use crate::studies::{PLAN, result_of};
use cut_ledger::{Event, Reply, Run};
use cut_outcome::Piece;
use cut_plan::Plan;
use std::alloc::{AllocError, Global};
use std::test::Fail;

// Of runs each event, with the trial in place of its result, and the reply. A line feed is written as a slash.

const NO_JOURNAL: &str = "Draw > Piece 0 1
Draw > Piece 1 1
HandIn 1 > Accepted
Emit 80 > Bytes [k,h,l,f,trials,receivers,conflicts,silent,extra,votes,decided,right,ppm/]
HandIn 0 > Accepted
HandIn 0 > Refused 16 Overlap
Emit 100 > Bytes [1,1,1,1,2,8,0,0,0,8,2,2,0/]
Finish > Done";

// The slip under way is found after the crash, and then it isn't.
const FOUND: &str = "HandIn 0 > Accepted
HandInDiskFails 1 > Refused 30 Checkpoint
HandIn 1 > Refused 30 Checkpoint
CrashReopen 1 > Opened
Draw > NoPiece
Emit 200 > Bytes [k,h,l,f,trials,receivers,conflicts,silent,extra,votes,decided,right,ppm/1,1,1,1,2,8,0,0,0,8,2,2,0/]
Finish > Done";

const NOT_FOUND: &str = "HandIn 0 > Accepted
HandInDiskFails 1 > Refused 30 Checkpoint
CrashReopen 0 > Opened
Draw > Piece 1 1
Emit 200 > Bytes [k,h,l,f,trials,receivers,conflicts,silent,extra,votes,decided,right,ppm/]
Finish > NotYet";

const LOST: &str = "Lose 0 > Noted
Lose 0 > Refused 14 BadPiece
Lose 2 > Refused 14 BadPiece
Finish > Refused 32 Memory
WireFails 5 > Bytes [k,h,l]
Emit 5 > Bytes []
NewWire > Ready
Emit 3 > Bytes [k,h]";

// Whether a run has a journal, and its events.
const RUNS: [(bool, &str); 4] = [
    (false, NO_JOURNAL),
    (true, FOUND),
    (true, NOT_FOUND),
    (false, LOST),
];

// A reply as it is written here.
fn written(alloc: Global, reply: &Reply) -> Result<String, AllocError> {
    match reply {
        Reply::Piece(Piece { first, count }) => format!(in alloc; "Piece {first} {count}"),
        Reply::Refused(code) => format!(in alloc; "Refused {code}"),
        Reply::Bytes(bytes) => {
            let text = String::from_utf8_lossy(alloc, bytes.as_slice())?;
            format!(in alloc; "Bytes [{}]", text.replace(alloc, "\n", "/")?)
        }
        other => format!(in alloc; "{other:?}"),
    }
}

// The event that is written, of a piece of one trial.
fn event_of(alloc: Global, plan: &Plan, text: &str) -> Result<Event, Fail>
    ensures { IfOk result IsSizedEvent }
{
    let (word, number) = text.split_once(' ').unwrap_or((text, ""));
    let first = number.parse::<u32>().unwrap_or(0);
    let piece = Piece { first, count: 1 };
    let number = u64::from(first);
    Ok(match word {
        "Draw" => Event::Draw,
        "HandIn" => Event::HandIn(result_of(alloc, plan, piece)?),
        "HandInDiskFails" => Event::HandInDiskFails(result_of(alloc, plan, piece)?),
        "Lose" => Event::Lose(number),
        "CrashReopen" => Event::CrashReopen {
            keep: number == 1,
            size: 1,
        },
        "Emit" => Event::Emit(number),
        "WireFails" => Event::WireFails(number),
        "NewWire" => Event::NewWire,
        _ => Event::Finish,
    })
}

// Whether a run replies to the event of a row as it says.
fn is_reply(alloc: Global, plan: &Plan, run: &mut Run, row: &str) -> Result<bool, Fail> {
    let (text, wanted) = row.split_once(" > ").unwrap_or((row, ""));
    let reply = run.apply(alloc, event_of(alloc, plan, text)?)?;
    Ok(written(alloc, &reply)?.as_str() == wanted)
}

// Whether a run replies so to each event.
fn are_replies(alloc: Global, plan: &Plan, run: &mut Run, rows: &str) -> Result<bool, Fail> {
    for row in rows.lines() {
        if !is_reply(alloc, plan, run, row)? {
            return Ok(false);
        }
    }
    Ok(true)
}

// Whether a run of a plan, in pieces of 1, replies so.
fn is_run(alloc: Global, plan: &Plan, has_journal: bool, rows: &str) -> Result<bool, Fail> {
    let mut run = Run::start(alloc, plan.try_clone(alloc)?, 1, has_journal)?;
    are_replies(alloc, plan, &mut run, rows)
}

#[test]
fn worked_runs(rt: HostRuntime) -> Result<(), Fail> {
    let plan = Plan::from_json(rt.alloc(), PLAN.as_bytes())?;
    for (has_journal, rows) in RUNS {
        assert!(rt; is_run(rt.alloc(), &plan, has_journal, rows)?, "{rows}");
    }
    Ok(())
}
