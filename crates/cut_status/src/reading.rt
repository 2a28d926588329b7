ghost use Rattle.std.specs.Prelude.{◌≡◌, true, IfOk, IfErr};
ghost use Rattle.cut_plan.specs.Plan.{IsPlan};
ghost use Rattle.cut_journal.specs.Reading.{is_study, says_plan};
ghost use Rattle.cut_journal.specs.Unread.{IsUnreadable};
ghost use Rattle.cut_status.specs.Study.{IsStatusOf, IsStatusFault};
ghost use Rattle.cut_status.specs.inside.Study.{status_fault_of, IsTallyIn};

use crate::header::header_plan;
use crate::{Status, StatusFault};
use cut_journal::{JournalFault, KeptSlips, is_study};
use cut_ledger::SlipTally;
use cut_plan::{Plan, laws};
use std::alloc::Global;

/// What the bytes of a checkpoint file say of its study: the plan is the one whose canonical text stands in the
/// header, and the slips are those that a journal of this plan reads. Beside the bytes it takes memory for the plan and
/// for the set of trials that are held.
///
/// A fault is the one with which a journal of that plan would refuse the bytes, or else the first slip with which a
/// ledger can't begin. Where a header says the text of no accepted plan, it is damaged.
pub fn status_of(alloc: Global, bytes: Vec<u8>) -> Result<Status, StatusFault>
    ensures ok { IfOk result (IsStatusOf bytes.items) }
    ensures err { IfErr result (IsStatusFault bytes.items) }
{
    if !is_study(&bytes) {
        return Err(StatusFault::NoStudy);
    }
    let plan = header_plan(alloc, &bytes)?;
    let tally = tally_in(alloc, &bytes, plan)?;
    Status::of(alloc, &tally)
}

/// The tally of the slips of the study of the plan that its header says.
fn tally_in(alloc: Global, bytes: &[u8], plan: Plan) -> Result<SlipTally, StatusFault>
    requires study { is_study bytes.now ≡ true }
    requires plan { IsPlan plan }
    requires said { says_plan plan bytes.now ≡ true }
    ensures read { IfOk result (IsTallyIn plan bytes.now) }
    ensures err { IfErr result (IsStatusFault bytes.now) }
{
    laws::canonical_text_reads_back();
    match tally_of(alloc, bytes, plan) {
        Ok(tally) => Ok(tally),
        Err(fault) => Err(status_fault_of(fault)),
    }
}

/// The tally of all slips of the study of a plan. One that is damaged is reported also if it comes after a bad one.
fn tally_of(alloc: Global, bytes: &[u8], plan: Plan) -> Result<SlipTally, JournalFault>
    ensures read { IfOk result (IsTallyIn plan bytes.now) }
    ensures err { IfErr result (IsUnreadable plan bytes.now) }
{
    let mut slips = KeptSlips::of(alloc, bytes, &plan)?;
    let mut tally = match SlipTally::new(alloc, plan) {
        Ok(tally) => tally,
        Err(_) => return Err(JournalFault::Memory),
    };
    while let Some(slip) = slips.next()? {
        match tally.add(&slip) {
            Ok(()) => {}
            Err(_) => return Err(JournalFault::Memory),
        }
    }
    Ok(tally)
}

/// The fault of a journal, where the header says its plan: it has no others than the first two.
fn status_fault_of(fault: JournalFault) -> StatusFault
    ensures { result ≡ status_fault_of fault }
{
    match fault {
        JournalFault::Memory => StatusFault::Memory,
        JournalFault::Damaged(number) => StatusFault::Damaged(number),
        _ => StatusFault::Damaged(0),
    }
}
