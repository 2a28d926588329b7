//! The plan whose text a header says.

ghost use Rattle.std.specs.Prelude.{◌≡◌, true, IfOk, IfErr};
ghost use Rattle.cut_plan.specs.Canonical.{canonical_text};
ghost use Rattle.cut_plan.specs.Plan.{IsPlan};
ghost use Rattle.cut_journal.specs.Reading.{is_study, says_plan};
ghost use Rattle.cut_status.specs.Study.{IsStatusFault};
ghost use Rattle.cut_status.specs.inside.Study.{IsOfNoPlan};

use crate::StatusFault;
use cut_journal::header_text;
use cut_plan::{Plan, PlanFault, laws};
use std::alloc::Global;

/// The plan whose canonical text a header says.
pub(crate) fn header_plan(alloc: Global, bytes: &[u8]) -> Result<Plan, StatusFault>
    requires { is_study bytes.now ≡ true }
    ensures plan { IfOk result (λ plan. IsPlan plan) }
    ensures said { IfOk result (λ plan. says_plan plan bytes.now ≡ true) }
    ensures err { IfErr result (IsStatusFault bytes.now) }
{
    match header_text(bytes) {
        Some(text) => canonical_plan(alloc, text),
        None => Err(StatusFault::Damaged(0)),
    }
}

/// The plan of which this is the canonical text.
fn canonical_plan(alloc: Global, text: &[u8]) -> Result<Plan, StatusFault>
    ensures plan { IfOk result (λ plan. IsPlan plan) }
    ensures text { IfOk result (λ plan. text.now ≡ canonical_text plan) }
    ensures err { IfErr result (IsOfNoPlan text.now) }
{
    laws::accepted_texts_give_plans();
    laws::canonical_text_reads_back();
    let plan = match Plan::from_json(alloc, text) {
        Ok(plan) => plan,
        Err(PlanFault::Memory) => return Err(StatusFault::Memory),
        Err(PlanFault::Refused(_)) => return Err(StatusFault::Damaged(0)),
    };
    let canonical = plan.canonical(alloc)?;
    if canonical.as_slice() != text {
        return Err(StatusFault::Damaged(0));
    }
    Ok(plan)
}
