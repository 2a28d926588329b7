//! Plans, their ledgers, and what is offered to these.

use cut_ledger::{Ledger, Slip};
use cut_outcome::{Piece, PieceResult, Totals};
use cut_plan::Plan;
use cut_rings::Rings;
use cut_trial::run_piece;
use std::alloc::Global;
use std::test::Fail;

/// Two trials of five processes, of which one crashes.
pub(crate) const PLAN: &str =
    r#"{"copies":1,"dead":"silent","f":[1],"faults":"crash","h":[1],"implicit":true,"k":[1],"l":[1],"liars":0,"links":0,"nodes":5,"repeats":2,"seed":"0000000000000000000000000000000000000000000000000000000000000000","version":1}"#;

/// The same in version 2.
pub(crate) const SETTLED: &str =
    r#"{"copies":1,"dead":"silent","deaf":0,"f":[1],"h":[1],"implicit":true,"k":[1],"l":[1],"liars":0,"links":0,"nodes":5,"repeats":2,"seed":"0000000000000000000000000000000000000000000000000000000000000000","version":2}"#;

/// The first with four processes.
pub(crate) const SMALLER: &str =
    r#"{"copies":1,"dead":"silent","f":[1],"faults":"crash","h":[1],"implicit":true,"k":[1],"l":[1],"liars":0,"links":0,"nodes":4,"repeats":2,"seed":"0000000000000000000000000000000000000000000000000000000000000000","version":1}"#;

/// Two cells of five trials each: in those of the first no process fails.
pub(crate) const TWO_CELLS: &str =
    r#"{"copies":1,"dead":"silent","f":[0,1],"faults":"crash","h":[1],"implicit":true,"k":[1],"l":[1],"liars":0,"links":0,"nodes":5,"repeats":5,"seed":"0000000000000000000000000000000000000000000000000000000000000000","version":1}"#;

/// A ledger of a plan that holds nothing.
pub(crate) fn fresh(alloc: Global, json: &str) -> Result<Ledger, Fail> {
    let plan = Plan::from_json(alloc, json.as_bytes())?;
    Ok(Ledger::fresh(alloc, plan)?)
}

/// A ledger of a plan that begins with a slip.
pub(crate) fn begun(alloc: Global, json: &str, slip: Slip) -> Result<Ledger, Fail> {
    let plan = Plan::from_json(alloc, json.as_bytes())?;
    Ok(Ledger::from_slips(alloc, plan, &[slip])?)
}

/// The result of a piece of a plan's trials.
pub(crate) fn result_of(alloc: Global, plan: &Plan, piece: Piece) -> Result<PieceResult, Fail> {
    let rings = Rings::hashed(alloc, plan)?;
    Ok(run_piece(alloc, plan, &rings, piece)?)
}

/// The piece that is written as its first trial and how many there are.
pub(crate) fn piece_of(text: &str) -> Piece {
    match text.split_once(' ') {
        Some((first, count)) => Piece {
            first: number(first),
            count: number(count),
        },
        None => Piece { first: 0, count: 0 },
    }
}

/// A number as it is written, 0 where it is none.
fn number(text: &str) -> u32 {
    text.parse::<u32>().unwrap_or(0)
}

/// The slip that is written as its piece and its totals in their order.
pub(crate) fn slip(text: &str) -> Slip {
    let (piece, rest) = text.split_once(": ").unwrap_or((text, ""));
    let mut numbers = [0; 8];
    for (number, word) in numbers.iter_mut().zip(rest.split(' ')) {
        *number = word.parse::<u64>().unwrap_or(0);
    }
    Slip {
        piece: piece_of(piece),
        totals: totals_of(numbers),
    }
}

/// Totals in their order.
fn totals_of(numbers: [u64; 8]) -> Totals {
    let [
        receivers,
        conflicts,
        silent,
        extra,
        votes,
        decided,
        right,
        settled,
    ] = numbers;
    Totals {
        receivers,
        conflicts,
        silent,
        extra,
        votes,
        decided,
        right,
        settled,
    }
}
