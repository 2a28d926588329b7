//! Journals on disks in memory, and on disks that fail.

use cut_disks::{DiskCall, MemoryDisk};
use cut_journal::{Journal, digest_of, header_text, is_study};
use cut_outcome::{Piece, PieceResult};
use cut_plan::Plan;
use cut_rings::Rings;
use cut_trial::run_piece;
use std::alloc::{AllocError, Global};
use std::test::Fail;

mod failing;
mod migration;

pub(crate) const SMALL: &str =
    r#"{"copies":1,"dead":"silent","f":[1],"faults":"crash","h":[1],"implicit":true,"k":[1],"l":[1],
"liars":0,"links":0,"nodes":5,"repeats":2,
"seed":"0000000000000000000000000000000000000000000000000000000000000000","version":1}"#;

// The result of both trials of the small plan.
fn both(alloc: Global, plan: &Plan) -> Result<PieceResult, Fail> {
    let rings = Rings::hashed(alloc, plan)?;
    Ok(run_piece(alloc, plan, &rings, Piece { first: 0, count: 2 })?)
}

// The disk of a new journal of a plan with one slip.
pub(crate) fn written(alloc: Global, plan: &Plan) -> Result<MemoryDisk, Fail> {
    let disk = MemoryDisk::of(alloc, Vec::new(alloc))?;
    let Ok(mut journal) = Journal::create(alloc, disk, plan) else {
        return Err(Fail::new("no journal was made"));
    };
    journal.append(&both(alloc, plan)?)?;
    Ok(journal.into_disk())
}

// How a call is written: the place and the number of the bytes of a write, or a sync.
fn call_text(alloc: Global, call: &DiskCall) -> Result<String, AllocError> {
    match call {
        DiskCall::Write { at, put } => format!(in alloc; "{at}+{} ", put.as_slice().len()),
        DiskCall::Sync => String::from_str(alloc, "sync "),
        _ => String::from_str(alloc, "other "),
    }
}

// What calls do to a disk, in order.
fn calls_text(alloc: Global, calls: &[DiskCall]) -> Result<String, AllocError> {
    let mut text = String::new(alloc);
    for call in calls {
        text.push_str(&call_text(alloc, call)?)?;
    }
    Ok(text)
}

// Each gate is opened by a write of its own, after what stands before it is synced.
#[test]
fn calls_come_in_order(rt: HostRuntime) -> Result<(), Fail> {
    let plan = Plan::from_json(rt.alloc(), SMALL.as_bytes())?;
    let disk = written(rt.alloc(), &plan)?;
    let calls = calls_text(rt.alloc(), disk.calls())?;
    assert!(rt; calls.as_str() == "sync 0+1 sync 1+266 sync 0+1 sync 267+105 sync 266+1 sync ");
    Ok(())
}

// What the first bytes of a file say.
#[test]
fn a_header_has_the_text_of_its_plan(rt: HostRuntime) -> Result<(), Fail> {
    let plan = Plan::from_json(rt.alloc(), SMALL.as_bytes())?;
    let disk = written(rt.alloc(), &plan)?;
    let text = plan.canonical(rt.alloc())?;
    assert!(rt; is_study(disk.bytes()) && header_text(disk.bytes()) == Some(text.as_slice()));
    Ok(())
}

// The digest of `abc`, as the examples of FIPS 180-4 have it.
const DIGEST: [u32; 8] = [
    0xba7816bf, 0x8f01cfea, 0x414140de, 0x5dae2223, 0xb00361a3, 0x96177a9c, 0xb410ff61, 0xf20015ad,
];

#[test]
fn digests_are_those_of_sha_256(rt: HostRuntime) {
    let digest = digest_of(b"abc");
    for (word, bytes) in DIGEST.iter().zip(digest.chunks_exact(4)) {
        assert!(rt; word.to_be_bytes().as_slice() == bytes);
    }
}
