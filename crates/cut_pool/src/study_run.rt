ghost use Rattle.std.proofs.Props.{props};
ghost use Rattle.std.specs.Prelude.{◌≡◌, ◌≤◌, Ok, Err, None, length, is_some, IfOk, IfErr, IfSome, OnOk};
ghost use Rattle.cut_disks.specs.Log.{IsKnown, on};
ghost use Rattle.cut_journal.specs.Reading.{reading};
ghost use Rattle.cut_ledger.specs.Slips.{AreGood};
ghost use Rattle.cut_pool.specs.inside.Conclusion.{IsNotBegun};
ghost use Rattle.cut_pool.specs.Running.{slips_of, HasEnded, Takes};
ghost use Rattle.cut_book.specs.Book.{IsFresh, failures_of};
ghost use Rattle.cut_pool.specs.Faults.{of_opening};
ghost use Rattle.cut_pool.specs.Leaving.{LeavesDisk};
ghost use Rattle.cut_pool.specs.inside.Leaving.{journal_in};

use crate::RunFault;
use crate::conclusion::disk_of;
use crate::private_hall::{OpenedStudy, PrivateHall};
use cut_book::{Book, BookFault};
use cut_disks::Disk;
use cut_hall::{Blanks, Gate, Report, WorkEnv};
use cut_journal::Journal;
use cut_ledger::Slip;
use cut_plan::{Plan, laws};
use cut_status::trials_held;
use cut_wires::Wire;
use std::alloc::Global;
use std::marker::Brand;
use std::sync::Wait;
use std::sync::ledger::Blank;
use std::thread::Threads;

/// A study that was run to its end.
#[derive(Drop)]
pub struct Done {
    /// How many bytes the wire took, which are the whole table.
    pub sent: u64,
    /// What became of its only slot.
    pub report: Report,
}

/// A study to run: its plan, the journal that keeps it with the slips that it was opened with, if it is kept, and how
/// the work is divided.
#[derive(Drop)]
pub struct StudyRun<'a, D: Disk> {
    /// The plan.
    pub plan: &'a Plan,
    /// The journal, and the slips that it was opened with.
    pub kept: Option<(Journal<D>, Vec<Slip>)>,
    /// How many trials a piece has, except for the last one of a gap.
    pub piece_size: u32,
    /// How many workers there are, 1 to 64. One of them is the thread that writes.
    pub workers: u32,
    pub ghost size: { 1 ≤ piece_size },
    pub ghost few: { (1 ≤ workers) × (workers ≤ 64) },
    pub ghost journal: { IfSome kept (λ k.
        (k.0.plan ≡ plan.now) × (k.0.count ≡ length k.1.items) × (k.0.doubtful ≡ None)) } by { Prim.hlevel props },
    pub ghost read: { IfSome kept (λ k. IsKnown (D.log k.0.disk)
        → reading plan.now (on (D.log k.0.disk)).bytes ≡ Ok k.1.items) } by { Prim.hlevel props },
}

/// How a run ended, with the disk of its study.
#[derive(Drop)]
pub struct EndedRun<D: Disk> {
    /// All was written, or why not.
    pub ended: Result<Done, RunFault>,
    /// The disk of the journal, if there is one.
    pub disk: Option<D>,
}

impl<D: Disk + Drop + Send> StudyRun<'_, D> {
    /// Runs the study, and writes its table to the wire: each line as soon as its cell and those before it are done.
    /// The thread of the caller writes, and works while a line is not there; the other workers have threads of their
    /// own. If fewer threads can be made, fewer do the work.
    ///
    /// With a journal the study goes on from the slips that it was opened with, and each piece is kept in it. The table
    /// is that over the slips, which is the plan's if they are true. A bad slip is reported before any byte is written.
    /// The gate's `opened` is called once the book is open. The disk comes back however it ends, with the slips that it
    /// had and, after them, those of what was run.
    pub fn run<'a, W, G, R>(
        self,
        rt: &'a R,
        alloc: Global,
        wire: &mut W,
        gate: &'a G,
    ) -> EndedRun<D>
    where
        W: Wire,
        G: Gate + Sync,
        R: Threads + Wait + Sync,
        ensures ended { HasEnded self.entry.plan.now (slips_of self.entry.kept) (is_some self.entry.kept)
            self.entry.piece_size result.ended }
        ensures takes { Takes self.entry.plan.now (slips_of self.entry.kept) result.ended
            (W.log wire.old) (W.log wire.new) }
        ensures left { LeavesDisk D.log self.entry.plan.now self.entry.kept result.ended result.disk }
    {
        let StudyRun {
            plan,
            kept,
            piece_size,
            workers,
        } = self;
        cut_book::laws::studies_take_their_own();
        laws::plans_are_accepted(plan);
        match open_kept(alloc, plan, kept, piece_size) {
            Ok(book) => {
                let held = trials_held(plan, book.ledger().base().as_slice());
                gate.opened(rt, u64::from(held), u64::from(plan.trials()));
                let begun = OpenedStudy {
                    book,
                    piece_size,
                    workers,
                };
                let blanks = Blanks {
                    made: Blank::new(u64::from(workers)),
                    kept: Blank::new(1),
                };
                let env = WorkEnv { rt, alloc, gate };
                PrivateHall::<D, Brand, Brand>::run::<W, G, R>(env, begun, blanks, wire)
            }
            Err((fault, journal)) => EndedRun {
                ended: Err(fault),
                disk: disk_of(journal),
            },
        }
    }
}

/// Runs the study of a plan by 1 to 64 workers, in pieces of `piece_size` trials, over a journal and the slips that it was
/// opened with, if it is kept, and writes its table to the wire: [`StudyRun::run`], with its values as
/// arguments. The journal is given up.
pub fn run_study<D, W, G, R>(
    rt: &R,
    alloc: Global,
    plan: &Plan,
    piece_size: u32,
    workers: u32,
    kept: Option<(Journal<D>, Vec<Slip>)>,
    wire: &mut W,
    gate: &G,
) -> Result<Done, RunFault>
where
    D: Disk + Drop + Send,
    W: Wire,
    G: Gate + Sync,
    R: Threads + Wait + Sync,
    requires size { 1 ≤ piece_size }
    requires few { (1 ≤ workers) × (workers ≤ 64) }
    requires journal { IfSome kept (λ k.
        (k.0.plan ≡ plan.now) × (k.0.count ≡ length k.1.items) × (k.0.doubtful ≡ None)) }
    requires read { IfSome kept (λ k. IsKnown (D.log k.0.disk)
        → reading plan.now (on (D.log k.0.disk)).bytes ≡ Ok k.1.items) }
    ensures ended { HasEnded plan.now (slips_of kept) (is_some kept) piece_size result }
    ensures takes { Takes plan.now (slips_of kept) result (W.log wire.old) (W.log wire.new) }
{
    let study = StudyRun {
        plan,
        kept,
        piece_size,
        workers,
    };
    let EndedRun { ended, .. } = study.run(rt, alloc, wire, gate);
    ended
}

/// The book of a plan's study over a journal and the slips that it was opened with, or over none. If it is refused the
/// journal comes back as it was.
fn open_kept<D: Disk + Drop>(
    alloc: Global,
    plan: &Plan,
    kept: Option<(Journal<D>, Vec<Slip>)>,
    piece_size: u32,
) -> Result<Book<D>, (RunFault, Option<Journal<D>>)>
    requires size { 1 ≤ piece_size }
    requires journal { IfSome kept (λ k.
        (k.0.plan ≡ plan.now) × (k.0.count ≡ length k.1.items) × (k.0.doubtful ≡ None)) }
    requires read { IfSome kept (λ k. IsKnown (D.log k.0.disk)
        → reading plan.now (on (D.log k.0.disk)).bytes ≡ Ok k.1.items) }
    ensures fresh { IfOk result (λ b. IsFresh plan.now b.size b) }
    ensures slips { IfOk result (λ b. (b.state.ledger.plan ≡ plan.now)
        × (b.state.ledger.base ≡ slips_of kept) × (b.state.has_journal ≡ is_some kept)) }
    ensures size { IfOk result (λ b. b.size ≡ piece_size) }
    ensures journal { IfOk result (λ b. (b.journal ≡ journal_in kept) × (b.failed ≡ failures_of D.log (journal_in kept))) }
    ensures good { OnOk result (AreGood plan.now (slips_of kept)) }
    ensures err { IfErr result (λ e. IsNotBegun plan.now (slips_of kept) e.0 × (e.1 ≡ journal_in kept)) }
{
    let cloned = plan.try_clone(alloc);
    match kept {
        Some((journal, slips)) => match cloned {
            Ok(plan) => opened(Book::over(
                alloc,
                plan,
                Some(journal),
                slips.as_slice(),
                piece_size,
            )),
            Err(_refused) => Err((RunFault::WorkMemory, Some(journal))),
        },
        None => match cloned {
            Ok(plan) => opened(Book::over(alloc, plan, None, &[], piece_size)),
            Err(_refused) => Err((RunFault::WorkMemory, None)),
        },
    }
}

/// A book that was opened, or the fault of the run if it was not.
fn opened<D: Disk + Drop>(
    book: Result<Book<D>, (BookFault, Option<Journal<D>>)>,
) -> Result<Book<D>, (RunFault, Option<Journal<D>>)>
    ensures ok { IfOk book (λ b. result ≡ Ok b) }
    ensures err { IfErr book (λ e. result ≡ Err (of_opening e.0, e.1)) }
{
    match book {
        Ok(book) => Ok(book),
        Err((fault, journal)) => Err((RunFault::from(fault), journal)),
    }
}
