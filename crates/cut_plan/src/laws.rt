//! Laws of plans, their cells and their texts.
ghost use Rattle.std.specs.Prelude.{◌≡◌, ◌<◌, ◌^◌, ℕ, List, Ok};
ghost use Rattle.std.specs.List.{Contains};
ghost use Rattle.cut_plan.specs.Values.{Values};
ghost use Rattle.cut_plan.specs.Plan.{IsPlan};
ghost use Rattle.cut_plan.specs.Accepted.{plan_of};
ghost use Rattle.cut_plan.specs.Canonical.{canonical_text};
ghost use Rattle.cut_plan.specs.Cells.{trial_count};
ghost use Rattle.cut_plan.specs.Combinations.{AreCombinations};
ghost use Rattle.cut_plan.specs.Targets.{deaf_of, upgraded};

use crate::Plan;

/// What an accepted text says is a plan: each value is in its range, each list is ascending, there is a cell, and no
/// limit is exceeded.
pub fn accepted_texts_give_plans()
    ensures { (text : List ℕ) (v : Values) → plan_of text ≡ Ok v → IsPlan v }
{}

/// The canonical text of every plan is accepted, and is that plan. So a text can stand for a plan,
/// and plans with equal texts are equal.
pub fn canonical_text_reads_back()
    ensures { (v : Values) → IsPlan v → plan_of (canonical_text v) ≡ Ok v }
{}

/// The cells of every plan are the combinations of its lists in which the low watermark is at most
/// the high one and that at most the number of rings, each once, in lexical order.
pub fn cells_are_the_combinations()
    ensures { (v : Values) → IsPlan v → AreCombinations v }
{}

/// The upgrade of a plan is a plan. For each number of failed processes in the plan, equally many of them are deaf.
pub fn upgrades_fail_alike()
    ensures plan { (v : Values) → IsPlan v → IsPlan (upgraded v) }
    ensures deaf { (v : Values) (f : ℕ) → Contains v.f f → deaf_of (upgraded v) f ≡ deaf_of v f }
{}

/// Each value of the type is an accepted plan, and the numbers of its trials are below 2^32.
pub fn plans_are_accepted(plan: &Plan)
    ensures accepted { IsPlan plan.now }
    ensures few { trial_count plan.now < 2 ^ 32 }
{
    let _ = plan.trials();
}
