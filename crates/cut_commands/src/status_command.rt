ghost use Rattle.cut_commands.specs.Status.{EndsStatus};

use crate::CliFault;
use crate::output::write_answer;
use cut_files::Files;
use cut_status::status_of;
use cut_wires::Wire;
use std::alloc::Global;

/// Writes to a wire what the checkpoint file at a path holds: how many trials and cells of its study are kept, in
/// how many slips, and the plan.
///
/// The file is read without its lock. Nothing is read from the wire, and nothing is written at a fault but that of a
/// write.
pub fn status<F: Files, W: Wire>(
    files: &F,
    alloc: Global,
    wire: &mut W,
    path: &str,
) -> Result<(), CliFault>
    ensures { EndsStatus (F.log files.now path.now) (W.log wire.old) (W.log wire.new) result }
{
    let bytes = files.read(alloc, path)?;
    let status = status_of(alloc, bytes)?;
    let text = status.to_text(alloc)?;
    write_answer(wire, text.as_slice())
}
