ghost use Rattle.std.specs.Prelude.{◌≡◌, ◌≤◌, true, Ok, None, Option, Result, length, IfOk};
ghost use Rattle.cut_disks.specs.Log.{IsKnown, on};
ghost use Rattle.cut_ledger.specs.Slips.{AreGood};
ghost use Rattle.cut_ledger.specs.World.{AreTrue};
ghost use Rattle.cut_journal.specs.Reading.{reading};
ghost use Rattle.cut_book.specs.declared.shelf.ShelfFault.{ShelfFault};
ghost use Rattle.cut_book.specs.Book.{IsFresh};
ghost use Rattle.cut_book.specs.Shelf.{OpensOver};
ghost use Rattle.cut_book.specs.inside.Shelf.{KeepsBook};

use crate::{Book, Shelf, SubmitFault};
use cut_disks::Disk;
use cut_journal::{Journal, JournalFault};
use cut_ledger::{Slip, laws};
use cut_plan::Plan;
use std::alloc::Global;

/// The book of a plan's study, over the disk that the shelf has for it. If there is a disk, the study is kept on it or
/// refused: it is never run without its disk.
pub fn open_book<D: Disk + Drop, S: Shelf<D>>(
    alloc: Global,
    plan: Plan,
    shelf: &S,
    piece_size: u32,
) -> Result<Book<D>, SubmitFault>
    requires { 1 ≤ piece_size }
    ensures fresh { IfOk result (λ b. IsFresh plan piece_size b) }
    ensures good { IfOk result (λ b. AreGood plan b.state.ledger.base) }
    ensures trusted { S.is_true shelf.now ≡ true → IfOk result (λ b. AreTrue plan b.state.ledger.base) }
    ensures over { (given : Result (Option D) ShelfFault) × (S.gives shelf.now plan given
        × OpensOver D.log plan given result) }
{
    laws::true_slips_give_the_table();
    match shelf.open(alloc, &plan)? {
        Some(disk) => {
            let opened = Journal::open(alloc, disk, &plan);
            kept_book(alloc, plan, opened, piece_size)
        }
        None => Ok(Book::new(alloc, plan, None, &[], piece_size)?),
    }
}

/// The book of a plan's study over a journal, if that was opened.
fn kept_book<D: Disk + Drop>(
    alloc: Global,
    plan: Plan,
    opened: Result<(Journal<D>, Vec<Slip>), (JournalFault, D)>,
    piece_size: u32,
) -> Result<Book<D>, SubmitFault>
    requires size { 1 ≤ piece_size }
    requires journal { IfOk opened (λ r.
        (r.0.plan ≡ plan) × (r.0.count ≡ length r.1.items) × (r.0.doubtful ≡ None)) }
    requires read { IfOk opened (λ r. IsKnown (D.log r.0.disk) → reading plan (on (D.log r.0.disk)).bytes ≡ Ok r.1.items) }
    ensures fresh { IfOk result (λ b. IsFresh plan piece_size b) }
    ensures good { IfOk result (λ b. AreGood plan b.state.ledger.base) }
    ensures kept { KeepsBook plan opened result }
{
    match opened {
        Ok((journal, slips)) => {
            Ok(Book::new(alloc, plan, Some(journal), slips.as_slice(), piece_size)?)
        }
        Err((fault, _disk)) => Err(SubmitFault::from(fault)),
    }
}
