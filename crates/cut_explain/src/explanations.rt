ghost use Rattle.std.specs.Prelude.{◌≡◌, string_bytes, IfOk};
ghost use Rattle.std.specs.Io.{StartsWith};
ghost use Rattle.cut_plan.specs.Accepted.{plan_of};
ghost use Rattle.cut_explain.specs.FirstLine.{first_line};

use crate::findings::{describe_plan, list_findings};
use cut_plan::{Plan, PlanFault, Refusal};
use std::alloc::{AllocError, Global};

/// Whether a text is a plan, and an explanation of it.
#[derive(Debug, Drop)]
pub struct Explanation {
    /// The plan of the text, or its first fault.
    pub plan: Result<Plan, Refusal>,
    /// The explanation, in lines that each end with a line feed. The first is `accepted`, or `refused: ` and the fault.
    pub text: String,
}

/// Explains a text.
///
/// For a plan there follow the numbers of its cells and trials, its quorum, the values that are in no cell, how many
/// keys are drawn at most, and how large its checkpoint gets at most. For any other text there follows every finding,
/// with what is expected there. For both, the keys that occur more than once.
pub fn explain(alloc: Global, text: &[u8]) -> Result<Explanation, AllocError>
    ensures plan { IfOk result (λ e. plan_of text.now ≡ e.plan) }
    ensures first_line { IfOk result (λ e. StartsWith (string_bytes e.text) (first_line (plan_of text.now))) }
{
    let plan = read_plan(alloc, text)?;
    let mut lines = first_line(alloc, &plan)?;
    let help = help_with(alloc, text, &plan)?;
    lines.push_str(help.as_str())?;
    Ok(Explanation { plan, text: lines })
}

/// The plan of a text, or its first fault.
fn read_plan(alloc: Global, text: &[u8]) -> Result<Result<Plan, Refusal>, AllocError>
    ensures { IfOk result (λ plan. plan_of text.now ≡ plan) }
{
    match Plan::from_json(alloc, text) {
        Ok(plan) => Ok(Ok(plan)),
        Err(PlanFault::Refused(refusal)) => Ok(Err(refusal)),
        Err(PlanFault::Memory) => Err(AllocError),
    }
}

/// The first line of an explanation.
fn first_line(alloc: Global, plan: &Result<Plan, Refusal>) -> Result<String, AllocError>
    ensures { IfOk result (λ line. string_bytes line ≡ first_line plan.now) }
{
    match plan {
        Ok(_) => String::from_str(alloc, "accepted\n"),
        Err(refusal) => format!(in alloc; "refused: {refusal}\n"),
    }
}

/// The lines after the first.
fn help_with(
    alloc: Global,
    text: &[u8],
    plan: &Result<Plan, Refusal>,
) -> Result<String, AllocError> {
    let mut help = String::new(alloc);
    if let Ok(plan) = plan {
        describe_plan(alloc, &mut help, plan)?;
    }
    list_findings(alloc, &mut help, text)?;
    Ok(help)
}
