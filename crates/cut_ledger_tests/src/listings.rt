//! A plain list of slips beside a ledger, for offers that are drawn.

use crate::ledgers::has_gaps;
use crate::studies::{TWO_CELLS, fresh, result_of};
use cut_ledger::{Ledger, OfferFault, Slip, slip_of};
use cut_outcome::{Piece, Totals};
use rand_chacha::ChaCha8Rng;
use rand_core::SeedableRng;
use rand_core::utils::NextWord;
use std::alloc::{AllocError, Global};
use std::test::Fail;

// How many trials each of the two cells has.
const REPEATS: u32 = 5;

// Whether a trial is one of some slip's.
fn has(slips: &[Slip], trial: u32) -> bool {
    slips.iter().any(|slip| slip.piece.first <= trial
        && trial - slip.piece.first < slip.piece.count)
}

// How many of a piece's trials are of some slip.
fn count_held(slips: &[Slip], piece: Piece) -> usize {
    let end = piece.first.saturating_add(piece.count);
    (piece.first..end)
        .filter(|trial| has(slips, *trial))
        .count()
}

// The runs of trials that are of no slip, as they are written: they end where cells do.
fn gaps_of(alloc: Global, slips: &[Slip]) -> Result<String, AllocError> {
    let mut text = String::new(alloc);
    let mut first = 0u32;
    for end in 1..=2 * REPEATS {
        if has(slips, end - 1) {
            first = end;
        } else if end % REPEATS == 0 || has(slips, end) {
            let comma = if text.is_empty() { "" } else { ", " };
            write!(text, "{comma}{first} {}", end.saturating_sub(first))?;
            first = end;
        }
    }
    Ok(text)
}

// Totals in their order.
fn numbers_of(totals: Totals) -> [u64; 8] {
    [
        totals.receivers,
        totals.conflicts,
        totals.silent,
        totals.extra,
        totals.votes,
        totals.decided,
        totals.right,
        totals.settled,
    ]
}

// The sums of the slips in a cell.
fn sums_of(slips: &[Slip], cell: u32) -> [u64; 8] {
    let mut sums = [0u64; 8];
    for slip in slips {
        if slip.piece.first / REPEATS == cell {
            for (sum, number) in sums.iter_mut().zip(numbers_of(slip.totals)) {
                *sum = sum.saturating_add(number);
            }
        }
    }
    sums
}

// Whether a cell of a ledger has the sums of these slips, and is done if they have all its trials.
fn is_cell(ledger: &Ledger, slips: &[Slip], cell: u32) -> bool {
    if cell >= ledger.plan().cells() {
        return false;
    }
    let first = cell.saturating_mul(REPEATS);
    let count = REPEATS;
    let is_full = count_held(slips, Piece { first, count }) == 5;
    numbers_of(ledger.cell_sum(cell)) == sums_of(slips, cell) && ledger.cell_done(cell) == is_full
}

// Whether a ledger holds the trials of these slips and no others.
fn is_listed(alloc: Global, ledger: &Ledger, slips: &[Slip]) -> Result<bool, AllocError> {
    for trial in 0..ledger.plan().trials() {
        if ledger.has(trial) != has(slips, trial) {
            return Ok(false);
        }
    }
    let are_cells = is_cell(ledger, slips, 0) && is_cell(ledger, slips, 1);
    Ok(are_cells && has_gaps(alloc, ledger, &gaps_of(alloc, slips)?)?)
}

// Whether a ledger takes the result of a piece exactly if no slip has a trial of it, and adds it then.
fn is_taken_once(
    alloc: Global,
    ledger: &mut Ledger,
    slips: &mut Vec<Slip>,
    piece: Piece,
) -> Result<bool, Fail> {
    let result = result_of(alloc, ledger.plan(), piece)?;
    let is_free = count_held(slips, piece) == 0;
    if is_free {
        slips.push(slip_of(&result))?;
    }
    let is_taken = match ledger.offer(&result) {
        Ok(()) => true,
        Err(OfferFault::Overlap) => false,
        Err(fault) => Err(fault)?,
    };
    Ok(is_taken == is_free && is_listed(alloc, ledger, slips)?)
}

// A piece that is drawn, of one to three trials of a cell.
fn drawn_piece(words: &mut ChaCha8Rng) -> Piece {
    let first = words.next_word() % 10;
    let left = REPEATS - first % REPEATS;
    let count = left.min(1 + words.next_word() % 3);
    Piece { first, count }
}

// Whether a ledger holds what is listed after each of 30 offers that are drawn.
fn are_listed(alloc: Global, stream: u64) -> Result<bool, Fail> {
    let mut words = ChaCha8Rng::from_seed([0; 32]);
    words.set_stream(stream);
    let mut ledger = fresh(alloc, TWO_CELLS)?;
    let mut slips = Vec::new(alloc);
    for _ in 0..30 {
        let piece = drawn_piece(&mut words);
        if !is_taken_once(alloc, &mut ledger, &mut slips, piece)? {
            return Ok(false);
        }
    }
    Ok(true)
}

#[test]
fn drawn_offers_are_listed(rt: HostRuntime) -> Result<(), Fail> {
    for stream in 0..20 {
        assert!(rt; are_listed(rt.alloc(), stream)?, "{stream}");
    }
    Ok(())
}
