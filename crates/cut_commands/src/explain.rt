ghost use Rattle.cut_commands.specs.Explain.{Explains};
ghost use Rattle.cut_commands.specs.Run.{EndsFrom, EndsWith, source_place};
ghost use Rattle.cut_commands.specs.inside.Explain.{IsWrittenAfter};

use crate::CliFault;
use crate::input::PlanSource;
use crate::output::write_answer;
use cut_explain::{Explanation, estimate_study, explain};
use cut_files::{Files, MemoryFiles};
use cut_plan::Plan;
use cut_wires::{Sent, Wire, send_all};
use std::alloc::Global;
use std::time::CpuClock;

/// Reads a text from a wire and writes what is right or wrong with it as a plan. After that, for a plan, it runs some of its
/// trials, and writes about how long its study takes.
///
/// The first line says whether it is accepted, or its first fault, with which the command ends then. At most 65,537 bytes
/// are read, and each fault of the wire is as in `run_io`.
pub fn explain_io<W: Wire, C: CpuClock>(
    alloc: Global,
    clock: &C,
    wire: &mut W,
) -> Result<(), CliFault>
    ensures { EndsWith Explains (W.log wire.old) (W.log wire.new) result }
{
    explain_from(alloc, clock, PlanSource::<MemoryFiles>::Input, wire)
}

/// The same of a text that is read from a wire or a file.
pub fn explain_from<F: Files, W: Wire, C: CpuClock>(
    alloc: Global,
    clock: &C,
    source: PlanSource<'_, F>,
    wire: &mut W,
) -> Result<(), CliFault>
    ensures { EndsFrom Explains (source_place F.log source.entry) (W.log wire.old) (W.log wire.new) result }
{
    let text = source.read_text(alloc, wire)?;
    let Explanation { plan, text: lines } = explain(alloc, text.as_slice())?;
    write_answer(wire, lines.as_bytes())?;
    match plan {
        Ok(plan) => write_estimate(alloc, clock, &plan, wire, lines.as_bytes()),
        Err(refusal) => Err(CliFault::Plan(refusal)),
    }
}

/// Writes about how long a study takes, after the lines that were written before. It is left out if it can't be had: if
/// the clock can't be read, or memory runs out.
fn write_estimate<W: Wire, C: CpuClock>(
    alloc: Global,
    clock: &C,
    plan: &Plan,
    wire: &mut W,
    before: &[u8],
) -> Result<(), CliFault>
    ensures { IsWrittenAfter before.now result (W.log wire.old) (W.log wire.new) }
{
    let Some(line) = estimate_line(alloc, clock, plan) else {
        return Ok(());
    };
    match send_all(wire, line.as_bytes()) {
        Ok(()) => Ok(()),
        Err(fault) => Err(CliFault::Write(Sent {
            sent: before.len() as u64 + fault.sent,
        })),
    }
}

/// The line on how long a study takes.
fn estimate_line<C: CpuClock>(alloc: Global, clock: &C, plan: &Plan) -> Option<String> {
    match estimate_study(alloc, clock, plan) {
        Ok(Some(estimate)) => estimate.line(alloc).ok(),
        _ => None,
    }
}
