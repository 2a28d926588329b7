ghost use Rattle.std.specs.Prelude.{◌≡◌, ◌<◌};
ghost use Rattle.cut_pool.specs.inside.Emission.{emit_result_of};

use cut_book::Opened;
use cut_disks::Disk;
use cut_hall::{CallLedger, Gate, Hall, NextRowFault, Pass, StudyCell, WorkEnv};
use cut_ledger::lines::header;
use cut_wires::{RowSource, RowsFault};
use std::sync::Wait;

/// Why a study's table was not written to its end: a write failed, or the next line did not come.
pub(crate) type EmitFault = RowsFault<NextRowFault>;

/// The lines of an opened study, each as soon as it is there. While it waits, this thread works on the study's pieces,
/// too. Each line is one call that the pass made.
#[derive(Drop)]
pub(crate) struct StudyRows<'a, D: Disk, M: CallLedger, K: CallLedger, G, R> {
    pub(crate) env: WorkEnv<'a, R, G>,
    pub(crate) hall: &'a Hall<D, M, K>,
    pub(crate) opened: &'a Opened,
    pub(crate) pass: &'a mut Pass<M>,
    ghost own: { pass.now.hall ≡ hall.now.id },
    ghost slot: { opened.now.study < hall.now.slots },
}

impl<D, M, K, G, R> RowSource for StudyRows<'_, D, M, K, G, R>
where
    D: Disk + Drop,
    M: CallLedger,
    K: CallLedger,
    G: Gate,
    R: Wait,
{
    ghost use Rattle.std.proofs.Common.{arith};
    ghost use Rattle.cut_pool.specs.inside.Emission.{Worked, begun, lines_of};

    type Fault = NextRowFault;

    ghost table = { λ rows. lines_of rows.opened.now.plan rows.opened.now.base };

    ghost HasGiven = { λ first n rows.
        Worked first.pass.ghost_name first.pass.now n rows.pass.ghost_name rows.pass.now };

    ghost HasFailed = { λ first n fault rows.
        Worked first.pass.ghost_name first.pass.now n rows.pass.ghost_name rows.pass.now };

    fn header(&self) -> &[u8] {
        header(&self.opened.plan)
    }

    fn count(&self) -> u32 {
        self.opened.plan.cells()
    }

    fn row(&mut self, place: u32) -> Result<Vec<u8>, NextRowFault> {
        let (hall, opened) = (self.hall, self.opened);
        let wanted = StudyCell {
            study: opened.study,
            cell: place,
        };
        hall.work_on_cell(&self.env, self.pass, wanted);
        hall.next_row(self.env.rt, self.env.alloc, self.pass, opened, place)
    }

    ghost begins = { λ rows. begun rows.pass.ghost_name rows.pass.now };

    ghost fits = { λ _. Prim.omega arith };
}

/// The result of writing a table, by the result of sending its lines and the number of bytes sent.
pub(crate) fn emit_result_of(outcome: Result<(), EmitFault>, sent: u64) -> Result<u64, EmitFault>
    ensures { result ≡ emit_result_of outcome sent }
{
    match outcome {
        Ok(()) => Ok(sent),
        Err(fault) => Err(fault),
    }
}
