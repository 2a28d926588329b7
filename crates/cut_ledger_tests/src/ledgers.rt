//! Ledgers that were worked by hand. Of pieces the first trial stands, and how many there are.

use crate::studies::{PLAN, SETTLED, SMALLER, TWO_CELLS, begun, fresh, piece_of, result_of, slip};
use cut_ledger::{Base, Division, Ledger, OfferFault, Slip, SlipsFault, slip_of};
use cut_outcome::Piece;
use cut_plan::Plan;
use std::alloc::{AllocError, Global};
use std::test::Fail;

// Whether pieces are those that are written, with commas between them.
fn are_pieces(pieces: &[Piece], wanted: &str) -> bool {
    for (piece, text) in pieces.iter().zip(wanted.split(", ")) {
        if *piece != piece_of(text) {
            return false;
        }
    }
    let count = if wanted.is_empty() {
        0
    } else {
        wanted.split(", ").count()
    };
    pieces.len() == count
}

// Whether a ledger has these gaps, and is complete exactly if these are none.
pub(crate) fn has_gaps(alloc: Global, ledger: &Ledger, wanted: &str) -> Result<bool, AllocError> {
    let gaps = ledger.gaps(alloc)?;
    Ok(are_pieces(&gaps, wanted) && ledger.complete() == wanted.is_empty())
}

// Trials that are offered, the number of the fault that they are refused with, 0 for none, and the gaps then.
const SINGLE_TRIALS: &str = "1 1: 0: 0 1
0 1: 0:
1 1: 16:";

const A_PIECE_AND_ITS_TRIAL: &str = "0 2: 0:
1 1: 16:";

// The number of the fault that the offer of a plan's trials is refused with, 0 if they are taken.
fn answer_to(alloc: Global, ledger: &mut Ledger, trials: Piece) -> Result<u16, Fail> {
    let result = result_of(alloc, ledger.plan(), trials)?;
    match ledger.offer(&result) {
        Ok(()) => Ok(0),
        Err(fault) => Ok(fault.code().number()),
    }
}

// Whether the offer of a row is answered so, and leaves the gaps that the row has.
fn is_answered(alloc: Global, ledger: &mut Ledger, row: &str) -> Result<bool, Fail> {
    let (trials, rest) = row.split_once(": ").unwrap_or((row, ""));
    let (refused, gaps) = rest.split_once(':').unwrap_or((rest, ""));
    let answer = answer_to(alloc, ledger, piece_of(trials))?;
    Ok(refused.parse::<u16>() == Ok(answer) && has_gaps(alloc, ledger, gaps.trim_start())?)
}

// Whether offers to a fresh ledger are answered so, and its one cell is done then, with these sums.
fn are_answered(alloc: Global, ledger: &mut Ledger, offers: &str) -> Result<bool, Fail> {
    for offer in offers.lines() {
        if !is_answered(alloc, ledger, offer)? {
            return Ok(false);
        }
    }
    Ok(is_done(ledger, slip("0 2: 8 0 0 0 8 2 2 0")))
}

// Whether the first cell is done, with the sums of a slip.
fn is_done(ledger: &Ledger, all: Slip) -> bool {
    if ledger.plan().cells() == 0 {
        return false;
    }
    ledger.has(0) && ledger.cell_done(0) && ledger.cell_sum(0) == all.totals
}

// Whether room is made in the first cell, where there was none, and nothing is held then.
fn gains_room(alloc: Global, ledger: &mut Ledger) -> Result<bool, Fail> {
    if ledger.plan().cells() == 0 || ledger.has_room(0) {
        return Ok(false);
    }
    ledger.reserve(0)?;
    Ok(ledger.has_room(0) && has_gaps(alloc, ledger, "0 2")?)
}

// Whether a result of another plan is refused.
fn is_stranger(alloc: Global, ledger: &mut Ledger) -> Result<bool, Fail> {
    let other = Plan::from_json(alloc, SMALLER.as_bytes())?;
    let result = result_of(alloc, &other, piece_of("0 1"))?;
    Ok(matches!(ledger.offer(&result), Err(OfferFault::Stranger)))
}

#[test]
fn trials_are_taken_once(rt: HostRuntime) -> Result<(), Fail> {
    let mut ledger = fresh(rt.alloc(), PLAN)?;
    assert!(rt; has_parts(rt.alloc(), &ledger, 1, "0 1, 1 1")?);
    assert!(rt; gains_room(rt.alloc(), &mut ledger)?);
    assert!(rt; is_stranger(rt.alloc(), &mut ledger)?);
    assert!(rt; are_answered(rt.alloc(), &mut ledger, SINGLE_TRIALS)?);
    Ok(())
}

#[test]
fn a_piece_is_taken_once(rt: HostRuntime) -> Result<(), Fail> {
    let mut ledger = fresh(rt.alloc(), PLAN)?;
    assert!(rt; are_answered(rt.alloc(), &mut ledger, A_PIECE_AND_ITS_TRIAL)?);
    Ok(())
}

// Trials of six, offered so that gaps are divided, shortened and filled. The last piece holds one that is taken.
const SIX_TRIALS: &str = "2 2: 0: 0 2, 4 2
0 1: 0: 1 1, 4 2
5 1: 0: 1 1, 4 1
1 1: 0: 4 1
3 2: 16: 4 1";

#[test]
fn gaps_close_around_what_is_taken(rt: HostRuntime) -> Result<(), Fail> {
    let text = PLAN.replace(rt.alloc(), "\"repeats\":2", "\"repeats\":6")?;
    let mut ledger = fresh(rt.alloc(), &text)?;
    for offer in SIX_TRIALS.lines() {
        assert!(rt; is_answered(rt.alloc(), &mut ledger, offer)?, "{offer}");
    }
    Ok(())
}

#[test]
fn a_slip_says_what_its_result_says(rt: HostRuntime) -> Result<(), Fail> {
    let ledger = fresh(rt.alloc(), PLAN)?;
    let result = result_of(rt.alloc(), ledger.plan(), piece_of("0 2"))?;
    assert!(rt; slip_of(&result) == slip("0 2: 8 0 0 0 8 2 2 0"));
    Ok(())
}

// Whether a division has these pieces, and none after the last.
fn is_divided(division: &Division, pieces: &[Piece]) -> bool {
    for (number, piece) in pieces.iter().enumerate() {
        if division.get(number as u64) != Some(*piece) {
            return false;
        }
    }
    division.len() == pieces.len() as u64 && division.get(division.len()) == None
}

// Sizes of pieces, and the pieces of what lacks the second trial of the second of two cells: gaps end where cells
// do, and the last piece of a gap is shorter where less is left.
const PARTS: &str = "2: 0 2, 2 2, 4 1, 5 1, 7 2, 9 1
5: 0 5, 5 1, 7 3
4294967295: 0 5, 5 1, 7 3";

// Whether a ledger's pieces of some size are these, listed and by their numbers.
fn has_parts(alloc: Global, ledger: &Ledger, size: u32, wanted: &str) -> Result<bool, AllocError> {
    if size == 0 {
        return Ok(false);
    }
    let pieces = ledger.pieces(alloc, size)?;
    let division = ledger.divide(alloc, size)?;
    Ok(are_pieces(&pieces, wanted) && is_divided(&division, &pieces))
}

// Whether a ledger has the pieces of a row.
fn is_row(alloc: Global, ledger: &Ledger, row: &str) -> Result<bool, AllocError> {
    let (size, wanted) = row.split_once(": ").unwrap_or((row, ""));
    has_parts(alloc, ledger, size.parse::<u32>().unwrap_or(0), wanted)
}

#[test]
fn parts_of_gaps(rt: HostRuntime) -> Result<(), Fail> {
    let ledger = begun(rt.alloc(), TWO_CELLS, slip("6 1: 4 0 0 0 4 1 1 0"))?;
    for row in PARTS.lines() {
        assert!(rt; is_row(rt.alloc(), &ledger, row)?, "{row}");
    }
    Ok(())
}

// Slips of the plan, and whether they are possible ones. False totals that are possible are believed. Only version 2
// says after how many deliveries receivers propose.
const POSSIBLE: &str = "0 1: 4 0 0 0 4 1 1 0 is possible
0 1: 4 4 0 0 4 1 0 0 is possible
1 1: 4 2 2 2 4 1 1 0 is possible
0 1: 5 0 0 0 4 1 1 0 is bad
0 0: 0 0 0 0 0 0 0 0 is bad
1 2: 8 0 0 0 8 2 2 0 is bad
0 1: 4 3 2 0 2 0 0 0 is bad
0 1: 4 0 2 3 2 0 0 0 is bad
0 1: 4 0 5 0 0 0 0 0 is bad
0 1: 4 0 0 0 5 1 1 0 is bad
0 1: 4 0 0 0 4 2 1 0 is bad
0 1: 4 0 0 0 4 0 1 0 is bad
0 1: 4 0 0 0 4 1 1 1 is bad
0 1: 4 0 0 0 4 1 1 4 is bad";

// The same of the plan of version 2: each receiver hears of five.
const POSSIBLE_2: &str = "0 1: 4 0 0 0 4 1 1 3 is bad
0 1: 4 0 0 0 4 1 1 4 is possible
0 1: 4 0 0 0 4 1 1 20 is possible
0 1: 4 0 0 0 4 1 1 21 is bad
0 1: 4 0 1 0 4 1 1 15 is possible
0 1: 4 0 1 0 4 1 1 16 is bad
0 1: 4 0 4 0 4 1 1 1 is bad";

// The number of the slip of a plan that is bad, 0 if none is.
fn bad_slip(alloc: Global, json: &str, slips: &[Slip]) -> Result<u64, Fail> {
    let plan = Plan::from_json(alloc, json.as_bytes())?;
    match Ledger::from_slips(alloc, plan, slips) {
        Ok(_ledger) => Ok(0),
        Err(SlipsFault::BadSlip(number)) => Ok(number),
        Err(fault) => Err(fault)?,
    }
}

// Whether the slip of a row is a possible one of a plan where the row says so.
fn is_judged(alloc: Global, json: &str, row: &str) -> Result<bool, Fail> {
    let (numbers, said) = row.split_once(" is ").unwrap_or((row, ""));
    let bad = bad_slip(alloc, json, &[slip(numbers)])?;
    Ok((bad == 0) == (said == "possible"))
}

#[test]
fn slips_that_are_possible(rt: HostRuntime) -> Result<(), Fail> {
    for row in POSSIBLE.lines() {
        assert!(rt; is_judged(rt.alloc(), PLAN, row)?, "{row}");
    }
    for row in POSSIBLE_2.lines() {
        assert!(rt; is_judged(rt.alloc(), SETTLED, row)?, "{row}");
    }
    let right = slip("0 1: 4 0 0 0 4 1 1 0");
    assert!(rt; bad_slip(rt.alloc(), PLAN, &[right, right])? == 2);
    Ok(())
}

// Whether a ledger began with these slips.
fn began_with(alloc: Global, ledger: &Ledger, slips: &[Slip]) -> Result<bool, AllocError> {
    let base = Base::from_vec(Vec::from_slice(alloc, slips)?);
    Ok(ledger.same_base(&base))
}

// Whether the copy of a ledger's base has the same slips.
fn is_copied(alloc: Global, ledger: &Ledger) -> Result<bool, AllocError> {
    let copy = ledger.base().try_clone(alloc)?;
    Ok(copy.into_vec().as_slice() == ledger.base().as_slice())
}

// The slip is the base; what it says is added to what is missing.
#[test]
fn a_ledger_over_a_slip(rt: HostRuntime) -> Result<(), Fail> {
    let one = slip("0 1: 4 4 0 0 4 1 0 0");
    let other = slip("0 1: 4 4 0 0 4 1 1 0");
    let mut ledger = begun(rt.alloc(), PLAN, one)?;
    assert!(rt; began_with(rt.alloc(), &ledger, &[one])?);
    assert!(rt; !began_with(rt.alloc(), &ledger, &[other])?);
    assert!(rt; is_copied(rt.alloc(), &ledger)?);
    assert!(rt; is_answered(rt.alloc(), &mut ledger, "1 1: 0:")?);
    assert!(rt; is_done(&ledger, slip("0 2: 8 4 0 0 8 2 1 0")));
    Ok(())
}

#[test]
fn faults_are_printed(rt: HostRuntime) -> Result<(), Fail> {
    assert!(rt; OfferFault::Stranger.to_string(rt.alloc())?.as_str() == "15 Stranger");
    assert!(rt; SlipsFault::BadSlip(7).to_string(rt.alloc())?.as_str() == "17 BadSlip 7");
    Ok(())
}

// Whether the offer of a trial is taken, if no growth of memory is refused: then it leaves a smaller gap, and else the
// one that there was.
fn is_taken(alloc: Global, ledger: &mut Ledger) -> Result<bool, Fail> {
    let result = result_of(alloc, ledger.plan(), piece_of("1 1"))?;
    match ledger.offer(&result) {
        Ok(()) => Ok(has_gaps(alloc, ledger, "0 1")?),
        Err(OfferFault::Memory) if !has_gaps(alloc, ledger, "0 2")? => Ok(false),
        Err(fault) => Err(fault)?,
    }
}

#[test]
fn refused_memory_changes_nothing(rt: HostRuntime) -> Result<(), Fail> {
    let mut ledger = fresh(rt.alloc(), PLAN)?;
    assert!(rt; is_taken(rt.alloc(), &mut ledger)?);
    Ok(())
}
