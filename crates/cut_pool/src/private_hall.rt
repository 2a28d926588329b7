ghost use Rattle.std.proofs.Props.{props};
ghost use Rattle.std.specs.Prelude.{false, Some, Ok, ◌≡◌, ◌+◌, ◌<◌, ◌≤◌, length, All, IfOk, IfErr, OnOk};
ghost use Rattle.atomic_table.specs.Seated.{TableId};
ghost use Rattle.cut_plan.specs.Cells.{cells_of};
ghost use Rattle.cut_ledger.specs.Table.{table_over};
ghost use Rattle.cut_ledger.specs.Slips.{AreGood};
ghost use Rattle.cut_pool.specs.inside.Emission.{EmitsStudy};
ghost use Rattle.cut_slots.specs.Report.{calls_in_all};
ghost use Rattle.cut_slots.specs.Start.{AreOpenedWith, start_of};
ghost use Rattle.cut_hall.specs.Closing.{IsStudyEnd};
ghost use Rattle.cut_book.specs.Book.{IsFresh};
ghost use Rattle.cut_pool.specs.Running.{HasEnded, Takes};
ghost use Rattle.cut_pool.specs.inside.Leaving.{LeavesBegun};
ghost use Rattle.cut_slots.specs.Trust.{begun_props};

use crate::RunFault;
use crate::conclusion::{conclude_run, disk_of};
use crate::emit::{EmitFault, StudyRows, emit_result_of};
use crate::study_run::EndedRun;
use cut_book::{Book, Opened};
use cut_disks::Disk;
use cut_hall::{Blanks, CallLedger, ClosedStudy, Gate, Hall, NotClosed, Pass, WorkEnv};
use cut_wires::{CountingWriter, PlainRows, Wire, send_rows};
use std::alloc::{AllocError, Global};
use std::sync::Wait;
use std::thread::{Threads, join_mut};
use std::{mem, thread};

/// A study of which nothing was asked yet, and by how many workers, in pieces of how many trials, it is to be run.
#[derive(Drop)]
pub(crate) struct OpenedStudy<D: Disk> {
    pub(crate) book: Book<D>,
    pub(crate) piece_size: u32,
    pub(crate) workers: u32,
    ghost size: { 1 ≤ piece_size },
    ghost few: { (1 ≤ workers) × (workers ≤ 64) },
    ghost fresh: { IsFresh book.state.ledger.plan book.size book } by { Prim.hlevel props },
    ghost good: { AreGood book.state.ledger.plan book.state.ledger.base } by { Prim.hlevel begun_props },
}

/// The passes of a study's workers: that of the thread that writes, and those of all others.
#[derive(Drop)]
struct WorkerPasses<M: CallLedger> {
    writer: Pass<M>,
    others: Vec<Pass<M>>,
}

/// A hall whose only slot has a study, with the passes of its workers.
#[derive(Drop)]
pub(crate) struct PrivateHall<D: Disk, M: CallLedger, K: CallLedger> {
    hall: Hall<D, M, K>,
    opened: Opened,
    crew: WorkerPasses<M>,
    ghost one_slot: { hall.slots ≡ 1 },
    ghost its_slot: { opened.study ≡ 0 },
    ghost others_own: { All (λ p. p.hall ≡ hall.id) crew.others.items },
    ghost writer_own: { crew.writer.hall ≡ hall.id },
}

impl<D: Disk + Drop, M: CallLedger, K: CallLedger> PrivateHall<D, M, K> {
    /// Runs a study that has begun, in a hall of its own: by workers in threads of their own, and by this thread, which
    /// writes the table. The blanks are as for `open`.
    pub(crate) fn run<W, G, R>(
        env: WorkEnv<'_, R, G>,
        begun: OpenedStudy<D>,
        blanks: Blanks,
        wire: &mut W,
    ) -> EndedRun<D>
    where
        D: Send,
        M: Send + Sync,
        K: Send + Sync,
        W: Wire,
        G: Gate + Sync,
        R: Threads + Wait + Sync,
        requires untrusted { K.trusts ≡ false }
        requires made { (blanks.made.name ≡ M.name) × (blanks.made.parts ≡ M.parts)
            × (M.all ≡ M.parts) × (M.all ≡ begun.workers) }
        requires kept { (blanks.kept.name ≡ K.name) × (blanks.kept.parts ≡ K.parts)
            × (K.all ≡ K.parts) × (K.all ≡ 1) × (K.opening ≡ Some (start_of D.log begun.book)) }
        ensures ended { HasEnded begun.book.state.ledger.plan begun.book.state.ledger.base
            begun.book.state.has_journal begun.book.size result.ended }
        ensures takes { Takes begun.book.state.ledger.plan begun.book.state.ledger.base result.ended
            (W.log wire.old) (W.log wire.new) }
        ensures left { LeavesBegun D.log begun.book result.ended result.disk }
    {
        let alloc = env.alloc;
        match PrivateHall::<D, M, K>::open(alloc, begun, blanks) {
            Ok(study) => {
                let PrivateHall {
                    hall,
                    opened,
                    mut crew,
                } = study;
                let sent = crew.stream(&env, &hall, &opened, wire);
                conclude_run(sent, crew.close(alloc, hall))
            }
            Err(book) => {
                let (_history, journal) = book.into_parts();
                EndedRun {
                    ended: Err(RunFault::WorkMemory),
                    disk: disk_of(journal),
                }
            }
        }
    }

    /// The hall of a study that has begun. The blanks are for the two ledgers of calls, of which the first has a part
    /// for each worker, and the second has one part. If memory runs out the book comes back as it was.
    fn open(
        alloc: Global,
        begun: OpenedStudy<D>,
        blanks: Blanks,
    ) -> Result<PrivateHall<D, M, K>, Book<D>>
        requires untrusted { K.trusts ≡ false }
        requires made { (blanks.made.name ≡ M.name) × (blanks.made.parts ≡ M.parts)
            × (M.all ≡ M.parts) × (M.all ≡ begun.workers) }
        requires kept { (blanks.kept.name ≡ K.name) × (blanks.kept.parts ≡ K.parts)
            × (K.all ≡ K.parts) × (K.all ≡ 1) × (K.opening ≡ Some (start_of D.log begun.book)) }
        ensures plan { IfOk result (λ s. s.opened.plan ≡ begun.book.state.ledger.plan) }
        ensures base { IfOk result (λ s. s.opened.base ≡ begun.book.state.ledger.base) }
        ensures opening { IfOk result (λ s. s.hall.opening ≡ Some (start_of D.log begun.book)) }
        ensures back { IfErr result (λ back. back ≡ begun.book) }
    {
        let OpenedStudy {
            book,
            piece_size,
            workers,
        } = begun;
        let Ok(opened) = opened_of(alloc, &book) else {
            return Err(book);
        };
        match Hall::of_book(alloc, book, piece_size, workers, blanks) {
            Ok((hall, mut others)) => {
                let Some(writer) = others.pop() else {
                    unreachable!()
                };
                Ok(PrivateHall {
                    hall,
                    opened,
                    crew: WorkerPasses { writer, others },
                })
            }
            Err(book) => Err(book),
        }
    }
}

/// What is opened of a book in the only slot of a hall.
fn opened_of<D: Disk + Drop>(alloc: Global, book: &Book<D>) -> Result<Opened, AllocError>
    ensures study { IfOk result (λ o. o.study ≡ 0) }
    ensures plan { IfOk result (λ o. o.plan ≡ book.now.state.ledger.plan) }
    ensures base { IfOk result (λ o. o.base ≡ book.now.state.ledger.base) }
{
    let ledger = book.ledger();
    Ok(Opened {
        study: 0,
        plan: ledger.plan().try_clone(alloc)?,
        base: ledger.base().try_clone(alloc)?,
    })
}

impl<M: CallLedger> WorkerPasses<M> {
    /// Lets the other workers work in threads of their own, and writes the table in this one, which works too while a line
    /// is not there. Once the table is written, or can't be, the hall is stopped.
    fn stream<D, K, W, G, R>(
        &mut self,
        env: &WorkEnv<'_, R, G>,
        hall: &Hall<D, M, K>,
        opened: &Opened,
        wire: &mut W,
    ) -> Result<u64, EmitFault>
    where
        D: Disk + Drop + Send,
        M: Send + Sync,
        K: CallLedger + Send + Sync,
        W: Wire,
        G: Gate + Sync,
        R: Threads + Wait + Sync,
        requires slot { opened.now.study < hall.now.slots }
        requires others { All (λ p. p.hall ≡ hall.now.id) self.old.others.items }
        requires writer { self.old.writer.hall ≡ hall.now.id }
        ensures emits { EmitsStudy (table_over opened.now.plan opened.now.base) result
            (W.log wire.old) (W.log wire.new) }
        ensures others { All (λ p. p.hall ≡ hall.now.id) self.new.others.items }
        ensures writer { self.new.writer.hall ≡ hall.now.id }
        ensures made { OnOk result (length (cells_of opened.now.plan) ≤ self.new.writer.made) }
    {
        let WorkEnv { rt, alloc, gate } = *env;
        let WorkerPasses { writer, others } = self;
        let mut write = || -> Result<u64, EmitFault>
            requires own { writer.now.hall ≡ hall.now.id }
            requires slot { opened.now.study < hall.now.slots }
            ensures emits { EmitsStudy (table_over opened.entry.now.plan opened.entry.now.base) result
                (W.log wire.entry.now) (W.log wire.exit.now) }
            ensures own { writer.exit.now.hall ≡ hall.entry.now.id }
            ensures made { OnOk result (length (cells_of opened.entry.now.plan) ≤ writer.exit.now.made) }
        {
            let mut rows = StudyRows {
                env: WorkEnv { rt, alloc, gate },
                hall,
                opened,
                pass: writer,
            };
            let mut counting = CountingWriter::new(wire);
            let outcome = send_rows::<PlainRows, _, W>(&mut rows, &mut counting);
            hall.stop(rt);
            emit_result_of(outcome, counting.sent())
        };
        work_beside(env, hall, others, &mut write)
    }

    /// Closes a hall with the passes of its workers. Passes are missing only if memory ran out.
    fn close<D, K>(self, alloc: Global, hall: Hall<D, M, K>) -> ClosedStudy<D>
    where
        D: Disk + Drop,
        K: CallLedger,
        requires ledgers { (M.all ≡ M.parts) × (K.all ≡ K.parts) }
        requires one { hall.slots ≡ 1 }
        requires others { All (λ p. p.hall ≡ hall.id) self.others.items }
        requires writer { self.writer.hall ≡ hall.id }
        ensures slots { IfOk result.report (λ report. length report ≡ 1) }
        ensures opened { IfOk result.report (λ report. AreOpenedWith hall.opening report) }
        ensures calls { IfOk result.report (λ report. self.writer.made ≤ calls_in_all report) }
        ensures ends { IsStudyEnd D.log hall.opening result.report result.is_broken result.journal }
    {
        let WorkerPasses {
            writer,
            others: mut passes,
        } = self;
        match passes.push(writer) {
            Ok(()) => hall.close_study(alloc, passes),
            Err(_refused) => ClosedStudy {
                report: Err(NotClosed::Memory),
                ..hall.close_study(alloc, passes)
            },
        }
    }
}

/// A hall as the threads of workers share it.
trait Workplace {
    /// The ledger of the calls that its passes make.
    type Made: CallLedger + Send + Sync;

    /// Which hall it is.
    ghost id_of: { Self → TableId };

    /// That it has a slot.
    ghost has_slot: { Self → Type 0 };

    /// Works on the pieces of the first study until none are left to be drawn.
    fn work_off_first<G: Gate, R: Wait>(&self, env: &WorkEnv<'_, R, G>, pass: &mut Pass<Self::Made>)
        requires own { pass.old.hall ≡ id_of self.now }
        requires slot { has_slot self.now }
        ensures { pass.new.hall ≡ pass.old.hall };
}

impl<D, M, K> Workplace for Hall<D, M, K>
where
    D: Disk + Drop,
    M: CallLedger + Send + Sync,
    K: CallLedger,
{
    type Made = M;

    ghost id_of = { λ h. h.id };

    ghost has_slot = { λ h. 0 < h.slots };

    fn work_off_first<G: Gate, R: Wait>(&self, env: &WorkEnv<'_, R, G>, pass: &mut Pass<M>) {
        self.work_off(env, pass, 0);
    }
}

/// Lets each pass work in a thread of its own, and writes in this one meanwhile. If no thread can be made, they find
/// nothing left to do once it has written.
fn work_beside<S, G, R, F>(
    env: &WorkEnv<'_, R, G>,
    hall: &S,
    passes: &mut Vec<Pass<S::Made>>,
    write: &mut F,
) -> Result<u64, EmitFault>
where
    S: Workplace + Sync,
    G: Gate + Sync,
    R: Threads + Wait + Sync,
    F: FnMut() -> Result<u64, EmitFault>,
    requires slot { S.has_slot hall.now }
    requires own { All (λ p. p.hall ≡ S.id_of hall.now) passes.old.items }
    requires write { F.pre write.old }
    ensures own { All (λ p. p.hall ≡ S.id_of hall.now) passes.new.items }
    ensures write { F.step write.old result write.new }
{
    let WorkEnv { rt, alloc, gate } = *env;
    let mut work = ||
        requires { S.has_slot hall.now × All (λ p. p.hall ≡ S.id_of hall.now) passes.now.items }
        ensures { All (λ p. p.hall ≡ S.id_of hall.entry.now) passes.exit.now.items }
    { work_off_all(rt, alloc, hall, gate, passes) };
    let (_, written) = join_mut(rt, &mut work, write);
    written
}

/// Lets each pass work on the pieces of the first study, in a thread of its own where one can be made, until none
/// are left to be drawn. Where memory is refused the passes are gone, and the thread that writes does their work.
fn work_off_all<S, G, R>(rt: &R, alloc: Global, hall: &S, gate: &G, passes: &mut Vec<Pass<S::Made>>)
where
    S: Workplace + Sync,
    G: Gate + Sync,
    R: Threads + Wait + Sync,
    requires slot { S.has_slot hall.now }
    requires own { All (λ p. p.hall ≡ S.id_of hall.now) passes.old.items }
    ensures { All (λ p. p.hall ≡ S.id_of hall.now) passes.new.items }
{
    let waiting = mem::replace(passes, Vec::new(alloc));
    let worked = thread::map_vec(
        rt,
        waiting,
        &|mut pass: Pass<S::Made>| -> Pass<S::Made>
            requires { S.has_slot hall.now × (pass.hall ≡ S.id_of hall.now) }
            ensures { result.hall ≡ S.id_of hall.entry.now }
        {
            hall.work_off_first(&WorkEnv { rt, alloc, gate }, &mut pass);
            pass
        },
    );
    if let Ok(worked) = worked {
        *passes = worked;
    }
}
