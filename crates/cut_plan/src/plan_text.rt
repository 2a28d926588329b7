//! Reading a plan of a JSON text.
ghost use Rattle.std.specs.Prelude.{◌≡◌, IfOk, IfErr, Ok};
ghost use Rattle.serde_json.specs.Read.{read};
ghost use Rattle.serde_json.specs.View.{view};
ghost use Rattle.cut_plan.specs.Accepted.{plan_in};
ghost use Rattle.cut_plan.specs.inside.Accepted.{found_in};
ghost use Rattle.cut_plan.specs.Refusals.{IsFaultOfText};

use crate::field_checks::check;
use crate::{Plan, PlanFault, Refusal};
use serde_json::Value;
use std::alloc::Global;

/// The plan of a text that is not too long.
pub(crate) fn read_text(alloc: Global, text: &str) -> Result<Plan, PlanFault>
    ensures ok { IfOk result (λ p. found_in (read text.now) ≡ Ok p) }
    ensures err { IfErr result (λ e. IsFaultOfText (found_in (read text.now)) e) }
{
    match Value::from_str(alloc, text) {
        Ok(value) => read_value(alloc, &value),
        Err(error) => if error.is_memory() {
            Err(PlanFault::Memory)
        } else {
            Err(PlanFault::Refused(Refusal::NotJson))
        },
    }
}

/// The plan of a JSON value.
#[tactic(auto, unfolding(crate::specs::Accepted::plan_in))]
fn read_value(alloc: Global, value: &Value) -> Result<Plan, PlanFault>
    ensures ok { IfOk result (λ p. plan_in (view value.now) ≡ Ok p) }
    ensures err { IfErr result (λ e. IsFaultOfText (plan_in (view value.now)) e) }
{
    check(value)?;
    Plan::of_checked(alloc, value)
}
