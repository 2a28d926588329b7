ghost use Rattle.std.specs.Prelude.{◌≡◌, string_bytes, IfOk};
ghost use Rattle.cut_commands.specs.Check.{check_text};
ghost use Rattle.cut_commands.specs.Run.{EndsCommand, EndsCommandFrom, check_task, source_place};

use crate::CliFault;
use crate::input::PlanSource;
use crate::output::{push_line, write_answer};
use cut_files::{Files, MemoryFiles};
use cut_outcome::quorum;
use cut_plan::Plan;
use cut_wires::Wire;
use std::alloc::{AllocError, Global};

/// Reads a plan from a wire and writes how many cells and trials it has, and the quorum of its processes.
///
/// What is read and written, and each fault, is as in `run_io`.
pub fn check_io<W: Wire>(alloc: Global, wire: &mut W) -> Result<(), CliFault>
    ensures { EndsCommand check_task (W.log wire.old) (W.log wire.new) result }
{
    check_from(alloc, PlanSource::<MemoryFiles>::Input, wire)
}

/// The same of a plan that is read from a wire or a file.
pub fn check_from<F: Files, W: Wire>(
    alloc: Global,
    source: PlanSource<'_, F>,
    wire: &mut W,
) -> Result<(), CliFault>
    ensures { EndsCommandFrom check_task (source_place F.log source.entry) (W.log wire.old) (W.log wire.new) result }
{
    let plan = source.read_plan(alloc, wire)?;
    let text = check_text(alloc, &plan)?;
    write_answer(wire, text.as_bytes())
}

/// How many cells and trials a plan has, and the quorum of its processes, one line each.
fn check_text(alloc: Global, plan: &Plan) -> Result<String, AllocError>
    ensures { IfOk result (λ text. string_bytes text ≡ check_text plan.now) }
{
    let mut text = String::new(alloc);
    push_line(alloc, &mut text, "cells", u64::from(plan.cells()))?;
    push_line(alloc, &mut text, "trials", u64::from(plan.trials()))?;
    push_line(alloc, &mut text, "quorum", u64::from(quorum(plan.nodes())))?;
    Ok(text)
}
