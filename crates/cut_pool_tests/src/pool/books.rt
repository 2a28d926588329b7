//! Books through the calls of a study.

use crate::pool::piece::result_of;
use cut_book::{Book, BookFault, Call, History};
use cut_disks::{FaultyDisk, Tear};
use cut_journal::Journal;
use cut_outcome::Piece;
use cut_plan::Plan;
use cut_pool_cases::{ONE_LIAR, Study, TWO_TRIALS};
use std::alloc::{AllocError, Global};
use std::test::Fail;

/// A book over a disk.
type KeptBook = Book<FaultyDisk>;

/// The line of the study.
const LINE: &[u8] = b"1,1,1,1,2,8,0,0,0,8,2,2,0\n";

/// The number of the fault with which a book answers, or 0.
fn number_of(answer: Result<(), BookFault>) -> u16 {
    match answer {
        Ok(()) => 0,
        Err(fault) => fault.code().number(),
    }
}

/// What a book answers the result of this trial of a study.
fn hand_in(alloc: Global, book: &mut KeptBook, study: Study, first: u32) -> Result<u16, Fail> {
    let plan = Plan::from_json(alloc, study.plan.as_bytes())?;
    let result = result_of(alloc, &plan, Piece { first, count: 1 })?;
    Ok(number_of(book.hand_in(&result)))
}

/// What a book answers that is asked for the line of its first cell, if it is that line.
fn row(alloc: Global, book: &mut KeptBook) -> Option<u16> {
    if book.ledger().plan().cells() == 0 {
        return None;
    }
    match book.row(alloc, 0) {
        Ok(line) => (line.as_slice() == LINE).then_some(0),
        Err(fault) => Some(fault.code().number()),
    }
}

/// The results that a book is handed in, each of one trial of a study: those of both trials, beside others.
const RESULTS: &[(Study, u32)] = &[
    (TWO_TRIALS, 1),
    (ONE_LIAR, 0),
    (TWO_TRIALS, 0),
    (TWO_TRIALS, 0),
];

/// Whether a book answers so to the results.
fn are_answered(alloc: Global, book: &mut KeptBook, answers: &[u16]) -> Result<bool, Fail> {
    for ((study, first), answer) in RESULTS.iter().zip(answers) {
        if hand_in(alloc, book, *study, *first)? != *answer {
            return Ok(false);
        }
    }
    Ok(true)
}

/// What a book answers that loses a piece, and again, and one that there is none of.
fn lose_all(book: &mut KeptBook) -> [u16; 3] {
    [
        number_of(book.lose(0)),
        number_of(book.lose(0)),
        number_of(book.lose(2)),
    ]
}

/// How many calls a history has that took a result.
fn taken(alloc: Global, history: &History) -> Result<usize, AllocError> {
    Ok(
        history
            .calls(alloc)?
            .iter()
            .filter(|call| is_taken(**call))
            .count(),
    )
}

/// Whether a call took a result.
fn is_taken(call: Call) -> bool {
    match call {
        Call::HandIn { answer, .. } => answer.into_result().is_ok(),
        _ => false,
    }
}

/// Whether a book is complete and has lost a piece, and how many calls its history has and trials were accepted.
fn state_of(book: &KeptBook) -> (bool, bool, u64, u64) {
    (
        book.ledger().complete(),
        book.has_lost(),
        book.history_len(),
        book.history().accepted(),
    )
}

/// Whether a book without a journal has its line once it has both results.
fn gives_its_line(alloc: Global, book: &mut KeptBook) -> Result<bool, Fail> {
    let before = row(alloc, &mut *book);
    let are_answered = are_answered(alloc, &mut *book, &[0, 15, 0, 16])?;
    Ok(before == Some(18) && are_answered && row(alloc, book) == Some(0))
}

/// Whether its history has the calls so far, and those that lose pieces.
fn notes_its_calls(alloc: Global, book: &mut KeptBook) -> Result<bool, AllocError> {
    let is_noted = state_of(book) == (true, false, 6, 2);
    let are_lost = lose_all(&mut *book) == [0, 14, 14] && state_of(book) == (true, true, 7, 2);
    Ok(is_noted && are_lost && taken(alloc, book.history())? == 2)
}

/// Whether a book answers so over a new disk that fails in the call of this number, if an append fails then or not.
fn is_kept(
    alloc: Global,
    book: &mut KeptBook,
    answers: &[u16],
    has_failed: bool,
) -> Result<bool, Fail> {
    let is_right = are_answered(alloc, &mut *book, answers)?;
    Ok(is_right && book.journal().is_some() && book.is_broken() == has_failed)
}

/// What is done with a book of the study.
#[derive(Clone, Copy)]
enum Trial {
    /// It has no journal, and does all that a book does.
    Alone,
    /// Its disk never fails.
    Kept,
    /// Its disk fails in the first append.
    Failing,
}

/// Whether a book goes so.
fn goes_so(alloc: Global, book: &mut KeptBook, trial: Trial) -> Result<bool, Fail> {
    match trial {
        Trial::Alone => { Ok(gives_its_line(alloc, &mut *book)? && notes_its_calls(alloc, book)?) }
        Trial::Kept => is_kept(alloc, book, &[0, 15, 0, 16], false),
        Trial::Failing => is_kept(alloc, book, &[30, 30, 30, 30], true),
    }
}

/// A book of the study, of two pieces of one trial.
fn new_book(alloc: Global, trial: Trial) -> Result<KeptBook, Fail> {
    match trial {
        Trial::Alone => Ok(Book::new(
            alloc,
            Plan::from_json(alloc, TWO_TRIALS.plan.as_bytes())?,
            None,
            &[],
            1,
        )?),
        Trial::Kept => book_over(alloc, 0),
        // Eleven calls open the journal, and each append makes four.
        Trial::Failing => book_over(alloc, 13),
    }
}

/// Whether a new book goes so.
fn is_right(alloc: Global, trial: Trial) -> Result<bool, Fail> {
    let mut book = new_book(alloc, trial)?;
    goes_so(alloc, &mut book, trial)
}

/// A book of the study over a new disk that fails in the call of this number, or never if that is 0.
fn book_over(alloc: Global, fail_at: u64) -> Result<KeptBook, Fail> {
    let disk = FaultyDisk::of(alloc, Vec::new(alloc), fail_at, Tear::Nothing)?;
    disk.arm();
    let plan = Plan::from_json(alloc, TWO_TRIALS.plan.as_bytes())?;
    match Journal::open(alloc, disk, &plan) {
        Ok((journal, slips)) => Ok(Book::new(alloc, plan, Some(journal), slips.as_slice(), 1)?),
        Err(_) => Err("no journal")?,
    }
}

#[test]
fn books_answer_and_keep_what_is_accepted(rt: HostRuntime) -> Result<(), Fail> {
    for trial in [Trial::Alone, Trial::Kept, Trial::Failing] {
        assert!(rt; is_right(rt.alloc(), trial)?);
    }
    Ok(())
}

/// Whether a book whose disk failed says that its line is not done, and notes once that a piece is lost.
fn answers_broken(alloc: Global, book: &mut KeptBook) -> Result<bool, Fail> {
    let second = hand_in(alloc, &mut *book, TWO_TRIALS, 1)?;
    let first = hand_in(alloc, &mut *book, TWO_TRIALS, 0)?;
    let has_no_line = row(alloc, &mut *book) == Some(18);
    let lost = [number_of(book.lose(0)), number_of(book.lose(0))];
    Ok([second, first] == [30, 30] && has_no_line && lost == [0, 14])
}

#[test]
fn a_broken_book_answers_what_needs_no_disk(rt: HostRuntime) -> Result<(), Fail> {
    let mut book = new_book(rt.alloc(), Trial::Failing)?;
    assert!(rt; answers_broken(rt.alloc(), &mut book)?);
    Ok(())
}

/// Faults, each with its text.
const TEXTS: &[(BookFault, &str)] = &[
    (BookFault::BadPiece, "14 BadPiece"),
    (BookFault::Stranger, "15 Stranger"),
    (BookFault::Overlap, "16 Overlap"),
    (BookFault::BadSlip(2), "17 BadSlip 2"),
    (BookFault::NotDone(0), "18 NotDone 0"),
    (BookFault::Checkpoint, "30 Checkpoint"),
];

/// Whether each fault is printed as its text.
fn are_printed(alloc: Global) -> Result<bool, AllocError> {
    for (fault, text) in TEXTS {
        if fault.to_string(alloc)?.as_str() != *text {
            return Ok(false);
        }
    }
    Ok(true)
}

#[test]
fn faults_of_books_are_printed(rt: HostRuntime) -> Result<(), Fail> {
    assert!(rt; are_printed(rt.alloc())?);
    Ok(())
}
