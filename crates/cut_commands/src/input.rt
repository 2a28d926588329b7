ghost use Rattle.cut_commands.specs.Run.{GivesPlan, GivesPlanFrom, GivesText, GivesTextFrom, plan_place, source_place};
ghost use Rattle.cut_commands.specs.inside.Run.{FillsFrom, text_of};
ghost use Rattle.std.specs.Prelude.{◌≡◌, length};

use crate::CliFault;
use cut_files::{Files, MemoryFiles};
use cut_plan::{LONGEST_TEXT, Plan};
use cut_wires::Wire;
use std::alloc::Global;

/// How many bytes of its input the program reads at most: one more than a plan may have.
pub(crate) const TEXT_LIMIT: usize = LONGEST_TEXT + 1;

/// Where a command reads its plan from. At most 65,537 bytes are read of either, one more than a plan may have.
#[derive(Drop)]
pub enum PlanSource<'a, F> {
    /// The wire of the command, up to its end.
    Input,
    /// A file, which is only read. It is not locked, and may be open.
    File {
        /// The files.
        files: &'a F,
        /// Its path.
        path: &'a str,
    },
}

impl<'a, F: Files> PlanSource<'a, F> {
    /// The file at a path, if one is named, else the wire.
    pub fn of(files: &'a F, plan: Option<&'a str>) -> PlanSource<'a, F>
        ensures { source_place F.log result ≡ plan_place (F.log files.now) plan.entry }
    {
        match plan {
            Some(path) => PlanSource::File { files, path },
            None => PlanSource::Input,
        }
    }

    /// Reads a plan, as each command does that works on one.
    ///
    /// If the text is refused its first fault is returned, if a read of the wire fails Read, and if a file is not read
    /// the journal's Disk. Of a wire nothing is read if the plan has a file.
    pub fn read_plan<W: Wire>(&self, alloc: Global, wire: &mut W) -> Result<Plan, CliFault>
        ensures { GivesPlanFrom (source_place F.log self.now) result (W.log wire.old) (W.log wire.new) }
    {
        let text = self.read_text(alloc, wire)?;
        Ok(Plan::from_json(alloc, text.as_slice())?)
    }

    /// Reads the text of a plan.
    pub(crate) fn read_text<W: Wire>(
        &self,
        alloc: Global,
        wire: &mut W,
    ) -> Result<Vec<u8>, CliFault>
        ensures { GivesTextFrom (source_place F.log self.now) (text_of result) (W.log wire.old) (W.log wire.new) }
    {
        match self {
            PlanSource::Input => read_text(alloc, wire, TEXT_LIMIT),
            PlanSource::File { files, path } => Ok(files.read_start(alloc, path, TEXT_LIMIT)?),
        }
    }
}

/// Reads a plan from a wire, as `PlanSource::read_plan` does.
pub fn read_plan<W: Wire>(alloc: Global, wire: &mut W) -> Result<Plan, CliFault>
    ensures { GivesPlan result (W.log wire.old) (W.log wire.new) }
{
    PlanSource::<MemoryFiles>::Input.read_plan(alloc, wire)
}

/// The first bytes that a wire gives, up to a limit. A read that fails, or that is interrupted, is a fault.
fn read_text<W: Wire>(alloc: Global, wire: &mut W, limit: usize) -> Result<Vec<u8>, CliFault>
    ensures { GivesText limit (text_of result) (W.log wire.old) (W.log wire.new) }
{
    let mut text = vec![in alloc; 0u8; limit]?;
    let filled = fill_buffer(wire, text.as_mut_slice())?;
    text.truncate(filled);
    Ok(text)
}

/// Reads until the buffer is full or the input ends, and returns how many bytes came.
fn fill_buffer<W: Wire>(wire: &mut W, buffer: &mut [u8]) -> Result<usize, CliFault>
    ensures { FillsFrom (length buffer.old) result buffer.new (W.log wire.old) (W.log wire.new) }
{
    let mut filled = 0;
    while filled < buffer.len() {
        let n = match wire.read(&mut buffer[filled..]) {
            Ok(n) => n,
            Err(_) => return Err(CliFault::Read),
        };
        if n == 0 {
            break;
        }
        filled += n;
    }
    Ok(filled)
}
