//! Single calls, as they were worked out by hand.

use cut_alerts::{Roles, RolesFault};
use cut_detector::{Members, Proposal};
use cut_draws::{Delivery, Draws};
use cut_outcome::{Piece, Totals, Verdict, quorum};
use cut_plan::{Dead, Faults, Plan};
use cut_rings::{Edge, Rings};
use cut_trial::{Ballot, TrialFault, run_piece, verdict};
use std::alloc::{AllocError, Global};
use std::test::Fail;

const PLAN: &str =
    r#"{"copies":1,"dead":"silent","f":[1],"faults":"crash","h":[1],"implicit":true,"k":[1],"l":[1],"liars":0,"links":0,"nodes":5,"repeats":2,"seed":"0000000000000000000000000000000000000000000000000000000000000000","version":1}"#;

#[test]
fn quorums(rt: HostRuntime) {
    let few = [quorum(2), quorum(4), quorum(5), quorum(9)];
    assert!(rt; few == [2, 4, 4, 7] && quorum(1000) == 751 && quorum(2048) == 1537);
}

// A proposal of these members after the first delivery.
fn proposal(alloc: Global, members: &[u16]) -> Result<Proposal, AllocError> {
    Ok(Proposal {
        members: Members::from_vec(Vec::from_slice(alloc, members)?),
        at: 1,
    })
}

// What a proposal is beside the targets 1 and 2 of four processes.
fn judged(alloc: Global, members: &[u16]) -> Result<Verdict, RolesFault> {
    let roles = Roles::given(alloc, 4, &[1, 2], &[], &[], Faults::Crash, Dead::Silent)?;
    Ok(verdict(Some(&proposal(alloc, members)?), &roles))
}

// Members, whether a target is missing among them, and whether another process is one of them.
const JUDGED: [(&[u16], bool, bool); 4] = [
    (&[1], true, false),
    (&[1, 2], false, false),
    (&[1, 2, 3], false, true),
    (&[1, 3], true, true),
];

#[test]
fn proposals_are_judged(rt: HostRuntime) -> Result<(), Fail> {
    for (members, conflict, extra) in JUDGED {
        let wanted = Verdict {
            silent: false,
            conflict,
            extra,
        };
        assert!(rt; judged(rt.alloc(), members)? == wanted);
    }
    Ok(())
}

#[test]
fn a_ballot_counts_equal_proposals(rt: HostRuntime) -> Result<(), Fail> {
    let mut ballot = Ballot::new(rt.alloc());
    for member in [1, 1, 2] {
        ballot.add(&proposal(rt.alloc(), &[member])?)?;
    }
    assert!(rt; [ballot.largest(), ballot.votes_for(&[2])] == [2, 1]);
    Ok(())
}

// The study with two trials before it in which no process fails.
const TWO_CELLS: &str =
    r#"{"copies":1,"dead":"silent","f":[0,1],"faults":"crash","h":[1],"implicit":true,"k":[1],"l":[1],"liars":0,"links":0,"nodes":5,"repeats":2,"seed":"0000000000000000000000000000000000000000000000000000000000000000","version":1}"#;

// The result of a piece of a text's trials, and `None` if it is refused as none.
fn result_of(alloc: Global, text: &str, piece: Piece) -> Result<Option<Totals>, Fail> {
    let plan = Plan::from_json(alloc, text.as_bytes())?;
    let rings = Rings::hashed(alloc, &plan)?;
    match run_piece(alloc, &plan, &rings, piece) {
        Ok(result) => Ok(Some(result.totals())),
        Err(TrialFault::BadPiece) => Ok(None),
        Err(fault) => Err(fault)?,
    }
}

// Plans, and first trials and counts that are no pieces of them: none, past the last trial, and over two cells.
const REFUSED: [(&str, u32, u32); 4] = [
    (PLAN, 0, 0),
    (PLAN, 1, 2),
    (TWO_CELLS, 1, 2),
    (TWO_CELLS, 3, 2),
];

#[test]
fn pieces_of_other_trials_are_refused(rt: HostRuntime) -> Result<(), Fail> {
    for (text, first, count) in REFUSED {
        assert!(rt; result_of(rt.alloc(), text, Piece { first, count })?.is_none());
    }
    Ok(())
}

// In each of the two trials of the cell in which one process fails, the four others propose it.
#[test]
fn a_cell_has_the_same_totals_after_another(rt: HostRuntime) -> Result<(), Fail> {
    let wanted = Totals {
        receivers: 8,
        votes: 8,
        decided: 2,
        right: 2,
        ..Totals::ZERO
    };
    for (text, first) in [(PLAN, 0), (TWO_CELLS, 2)] {
        let found = result_of(rt.alloc(), text, Piece { first, count: 2 })?;
        assert!(rt; found == Some(wanted));
    }
    Ok(())
}

#[test]
fn few_edges_have_few_deliveries(rt: HostRuntime) -> Result<(), Fail> {
    let mut draws = Draws::new([0; 32], 0);
    assert!(rt; draws.deliveries(rt.alloc(), 1, 1, &[], 4)?.is_empty());
    let edge = Edge {
        ring: 0,
        subject: 1,
    };
    let order = draws.deliveries(rt.alloc(), 1, 1, &[edge], 1)?;
    assert!(rt; order.len() == 1 && order[0] == (Delivery { edge, copy: 0 }));
    Ok(())
}
