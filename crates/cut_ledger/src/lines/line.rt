ghost use Rattle.std.specs.Prelude.{◌≡◌, ◌^◌, ◌<◌, ◌≤◌, ◌++◌, length, IfOk, OnOk};
ghost use Rattle.cut_plan.specs.Cells.{cells_of};
ghost use Rattle.cut_plan.specs.Failing.{version_of};
ghost use Rattle.cut_ledger.specs.lines.Lines.{header, line_with, ppm_of, settled_column};

use crate::lines::row::write_row;
use cut_outcome::Totals;
use cut_plan::{Plan, Version};
use std::alloc::{AllocError, Global};

/// The most bytes of a line: 14 columns, each of at most 20 digits with the comma or the line feed after it.
pub const LONGEST_LINE: usize = 294;

/// The first line of a plan's table: the names of its columns, with a line feed. A table of version 2 has
/// the column `settled`, before `ppm`. It has at most 80 bytes.
pub fn header(plan: &Plan) -> &'static [u8]
    ensures names { result.now ≡ header (version_of plan.now.failing) }
    ensures short { length result.now ≤ 80 }
{
    match plan.version() {
        Version::One =>
            b"k,h,l,f,trials,receivers,conflicts,silent,extra,votes,decided,right,ppm\n",
        Version::Two => {
            b"k,h,l,f,trials,receivers,conflicts,silent,extra,votes,decided,right,settled,ppm\n"
        }
    }
}

/// The line of the plan's cell with this number, counted from 0, with a line feed: k, h, l and f of the cell, the
/// number of its trials, their sums (`settled` if the plan is of version 2), and conflicts in a million receivers,
/// rounded down (0 if there are no receivers). It has at most 294 bytes.
pub fn cell_line(
    alloc: Global,
    plan: &Plan,
    number: u32,
    totals: Totals,
) -> Result<Vec<u8>, AllocError>
    requires number { number < length (cells_of plan.now) }
    requires few { totals.conflicts < 2 ^ 32 }
    ensures line { IfOk result (λ line. line.items ≡ line_with plan.now number totals) }
    ensures short { IfOk result (λ line. length line.items ≤ LONGEST_LINE) }
{
    let cell = plan.cell(number);
    let first = [
        u64::from(cell.k),
        u64::from(cell.h),
        u64::from(cell.l),
        u64::from(cell.f),
        u64::from(plan.repeats()),
        totals.receivers,
        totals.conflicts,
        totals.silent,
        totals.extra,
        totals.votes,
        totals.decided,
        totals.right,
    ];
    let mut columns = Vec::from_slice(alloc, first.as_slice())?;
    push_settled(&mut columns, plan, totals)?;
    columns.push(ppm_of(totals))?;
    write_row(alloc, columns.as_slice())
}

/// Adds the column of `settled`, if the plan's tables have it.
fn push_settled(columns: &mut Vec<u64>, plan: &Plan, totals: Totals) -> Result<(), AllocError>
    ensures { OnOk result
        (columns.new.items ≡ columns.old.items ++ settled_column (version_of plan.now.failing) totals) }
{
    match plan.version() {
        Version::One => {}
        Version::Two => columns.push(totals.settled)?,
    }
    Ok(())
}

/// Conflicts in a million receivers, rounded down.
fn ppm_of(totals: Totals) -> u64
    requires { totals.conflicts < 2 ^ 32 }
    ensures { result ≡ ppm_of totals }
{
    if totals.receivers == 0 {
        return 0;
    }
    let parts = u128::from(totals.conflicts) * 1_000_000 / u128::from(totals.receivers);
    parts as u64
}
