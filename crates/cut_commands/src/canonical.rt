ghost use Rattle.std.specs.Prelude.{◌≡◌, IfOk};
ghost use Rattle.cut_commands.specs.Check.{canonical_line};
ghost use Rattle.cut_commands.specs.Run.{EndsCommand, EndsCommandFrom, canonical_task, source_place};

use crate::CliFault;
use crate::input::PlanSource;
use crate::output::write_answer;
use cut_files::{Files, MemoryFiles};
use cut_plan::Plan;
use cut_wires::Wire;
use std::alloc::{AllocError, Global};

/// Reads a plan from a wire and writes its canonical text, as one line. Its digest is the name of the plan's file in a
/// server's folder.
///
/// What is read and written, and each fault, is as in `run_io`.
pub fn canonical_io<W: Wire>(alloc: Global, wire: &mut W) -> Result<(), CliFault>
    ensures { EndsCommand canonical_task (W.log wire.old) (W.log wire.new) result }
{
    canonical_from(alloc, PlanSource::<MemoryFiles>::Input, wire)
}

/// The same of a plan that is read from a wire or a file.
pub fn canonical_from<F: Files, W: Wire>(
    alloc: Global,
    source: PlanSource<'_, F>,
    wire: &mut W,
) -> Result<(), CliFault>
    ensures { EndsCommandFrom canonical_task (source_place F.log source.entry) (W.log wire.old) (W.log wire.new) result }
{
    let plan = source.read_plan(alloc, wire)?;
    let line = canonical_line(alloc, &plan)?;
    write_answer(wire, line.as_slice())
}

/// The canonical text of a plan, with a line feed.
fn canonical_line(alloc: Global, plan: &Plan) -> Result<Vec<u8>, AllocError>
    ensures { IfOk result (λ line. line.items ≡ canonical_line plan.now) }
{
    let mut line = plan.canonical(alloc)?;
    line.push(b'\n')?;
    Ok(line)
}
